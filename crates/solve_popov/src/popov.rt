// The slots of a level brought into Popov form, so that the rows of its second system are short (section 2, step 5, of
// docs/mathematics.md).
ghost use Rattle.std.specs.Prelude.{ℕ, ◌<◌, ◌≤◌, get_or};
ghost use Rattle.solve_lattice.specs.Room.{lanes, block_words, most_coefficients};
ghost use Rattle.solve_lattice.specs.Memory.{Ends, ValidLevel};
ghost use Rattle.solve_descent.specs.Kernel.{ValidKernel};
ghost use Rattle.solve_popov.specs.Rework.{SlotsReworked};
ghost use Rattle.solve_popov.specs.Short.{HasMonicTops, ShortSolved};

use crate::slot::reduce_slot;
use residue::modulus::Modulus;
use solve_lattice::{Block, Level, ROWS, SIZES};
use solve_second::{Side, solve_second};

// Brings the slots of `level`, of n rows, into Popov form, with their tails modulo d, of `size` coefficients.
fn reduce_slots(level: &mut Level, n: usize, d: &Block, size: usize, modulus: Modulus)
    requires bounds { (n ≤ lanes) × ValidLevel modulus.p level.old }
    requires kernel { ValidKernel modulus.p d.now size × (0 < size) × (size ≤ most_coefficients) }
    ensures { SlotsReworked modulus.p n level.old n d.now level.new }
{
    for i in 0..n {
        if level[SIZES + i] != 0 {
            reduce_slot(level, i, d, size, modulus);
        }
    }
}

// Solves the second system of `level`, of n rows, whose slots may be changed by one another and by multiples of d, of `size`
// coefficients, so that no row is too long beside d w: stores w and the rows. Changes `level`.
pub fn solve_short(
    w: &mut Block,
    rows: &mut [u64; ROWS],
    level: &mut Level,
    n: usize,
    d: &Block,
    size: usize,
    modulus: Modulus,
)
    requires bounds { (n ≤ lanes) × ValidLevel modulus.p level.old }
    requires tops { HasMonicTops modulus.p n level.old d.now }
    requires multiple { ((j : ℕ) → get_or d.now j 0 < modulus.p) × Ends modulus.p d.now 0 block_words size }
    ensures { ShortSolved modulus.p n level.old d.now w.new rows.new }
{
    reduce_slots(level, n, d, size, modulus);
    solve_second(w, rows, level, n, Side::Tails, modulus);
}
