// A column that was inserted, on the way down.
ghost use Rattle.std.specs.Prelude.{ℕ, ◌<◌, get_or};
ghost use Rattle.solve_lattice.specs.Memory.{ValidLevel};
ghost use Rattle.solve_descent.specs.Kernel.{ValidKernel};
ghost use Rattle.solve_lattice.specs.Input.{ValidInput};
ghost use Rattle.solve_lattice.specs.Output.{ValidOutput};
ghost use Rattle.solve_certify.specs.Falling.{Fallen};

use solve_descent::descend_column;
use solve_lattice::{Block, Input, Level, Output, PRODUCT, Product, Stage, divide};

// Takes the stage's column off what is left of d b, whose coefficients in the blocks of `upper`, the level that the column's
// insertion made, are `quotients`: stores its numerator in `output`, and in `quotients` the coefficients of what is then left in
// the blocks of `level`. The kernel of the insertion has `size` words.
pub fn descend(
    output: &mut Output,
    quotients: &mut Product,
    level: &Level,
    upper: &Level,
    kernel: &Block,
    size: usize,
    input: &Input,
    stage: Stage,
)
    requires input { (stage.column < stage.columns) × ValidInput stage.modulus.p input.now }
    requires level { ValidLevel stage.modulus.p level.now × ValidLevel stage.modulus.p upper.now }
    requires kernel { ValidKernel stage.modulus.p kernel.now size }
    requires coefficients { (i : ℕ) → get_or quotients.old i 0 < stage.modulus.p }
    requires area { ValidOutput stage.modulus.p output.old }
    ensures { Fallen stage level.now upper.now kernel.now input.now
        quotients.old output.old quotients.new output.new }
{
    let modulus = stage.modulus;
    let mut rest = [0u64; PRODUCT];
    descend_column(
        &mut rest, output, quotients, upper, kernel, size, input, stage,
    );
    divide(quotients, &mut rest, PRODUCT, level, modulus);
}
