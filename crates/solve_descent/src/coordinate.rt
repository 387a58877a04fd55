// The coordinate of a column, found by the tails of a level.
ghost use Rattle.std.specs.Prelude.{ℕ, ◌<◌, ◌≤◌, get_or};
ghost use Rattle.vector.specs.Bound.{AtMost};
ghost use Rattle.solve_lattice.specs.Room.{lanes};
ghost use Rattle.solve_lattice.specs.Memory.{ValidLevel};
ghost use Rattle.solve_descent.specs.Degrees.{FewDegrees};
ghost use Rattle.solve_descent.specs.Kernel.{ValidKernel};
ghost use Rattle.solve_descent.specs.Coordinate.{FindsCoordinate};

use crate::kernel::reduce_by_kernel;
use crate::tails::subtract_combination;
use residue::modulus::Modulus;
use solve_lattice::{Block, Level, Product, Tail};

// Stores in y, which is 0, minus the combination of the tails of the first `rows` slots of `level` by `quotients`, which have
// `degrees` degrees, modulo `kernel`, of which `size` words count, in sums that are not reduced.
pub fn find_coordinate(
    y: &mut Tail,
    quotients: &Product,
    degrees: usize,
    level: &Level,
    rows: usize,
    kernel: &Block,
    size: usize,
    modulus: Modulus,
)
    requires bounds { (rows ≤ lanes) × ValidLevel modulus.p level.now }
    requires kernel { ValidKernel modulus.p kernel.now size }
    requires factors { (i : ℕ) → get_or quotients.now i 0 < modulus.p }
    requires degrees { FewDegrees modulus.p quotients.now degrees }
    requires zero { AtMost 0 y.old }
    ensures { FindsCoordinate modulus.p level.now rows kernel.now size quotients.now
        y.new }
{
    subtract_combination(y, quotients, degrees, level, rows, modulus);
    reduce_by_kernel(y, kernel, size, modulus);
}
