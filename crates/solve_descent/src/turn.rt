// One turn of the way down: a column gets its coordinate, and its part is taken off the vector.
ghost use Rattle.std.specs.Prelude.{ℕ, ◌+◌, ◌*◌, ◌<◌, get_or};
ghost use Rattle.vector.specs.Bound.{AtMost};
ghost use Rattle.solve_lattice.specs.Room.{lanes, block_words};
ghost use Rattle.solve_lattice.specs.Memory.{ValidLevel};
ghost use Rattle.solve_descent.specs.Kernel.{ValidKernel};
ghost use Rattle.solve_descent.specs.Turn.{Turned};

use crate::blocks::combine_blocks;
use crate::column::take_column;
use crate::coordinate::find_coordinate;
use crate::degrees::count_degrees;
use solve_lattice::{BLOCK, Block, Input, Level, Output, Product, Stage, TAIL};

// Takes the column of the stage off a vector in the span of `upper`, the level that the column's insertion made; `quotients` are
// the vector's coefficients there, and of `kernel` `size` words count. Stores the coordinate of the column as its polynomial of
// `output`, and the vector less the coordinate times the column in `rest`, which is 0, in sums that are not reduced. Clears
// `quotients`, so that `rest` can be divided at once.
pub fn descend_column(
    rest: &mut Product,
    output: &mut Output,
    quotients: &mut Product,
    upper: &Level,
    kernel: &Block,
    size: usize,
    input: &Input,
    stage: Stage,
)
    requires bounds { (stage.column < lanes) × ValidLevel stage.modulus.p upper.now }
    requires kernel { ValidKernel stage.modulus.p kernel.now size }
    requires column { (i : ℕ) → get_or input.now i 0 < stage.modulus.p }
    requires factors { (i : ℕ) → get_or quotients.old i 0 < stage.modulus.p }
    requires coordinates { (i : ℕ) → get_or output.old i 0 < stage.modulus.p }
    requires zero { AtMost 0 rest.old }
    ensures { Turned stage.modulus.p upper.now stage.rows kernel.now input.now
        (block_words * stage.column) quotients.old output.old (block_words * (1 + stage.column))
        rest.new quotients.new output.new }
{
    let Stage {
        rows,
        column,
        modulus,
        ..
    } = stage;
    let mut y = [0u64; TAIL];
    let degrees = count_degrees(quotients, modulus);
    find_coordinate(
        &mut y, quotients, degrees, upper, rows, kernel, size, modulus,
    );
    combine_blocks(rest, quotients, degrees, upper, rows, modulus);
    take_column(
        rest,
        output,
        BLOCK * (1 + column),
        &y,
        input,
        BLOCK * column,
        modulus,
    );
}
