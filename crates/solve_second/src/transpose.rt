// The slots of the second system: the blocks of a level transposed, coordinates in reversed order, every block as high as the
// highest, `top` degrees.
ghost use Rattle.std.specs.Prelude.{◌≡◌, ◌+◌, ◌<◌, ◌≤◌, length};
ghost use Rattle.vector.specs.Bound.{AtMost};
ghost use Rattle.solve_lattice.specs.Room.{level_words, lanes};
ghost use Rattle.solve_second.specs.Greatest.{LowBlocks, greatest};
ghost use Rattle.solve_second.specs.Laid.{SlotsLaid};
ghost use Rattle.solve_second.specs.TransposeFilling.{SlotsSoFar};

use crate::height::greatest_height;
use crate::lane::transpose_lane;
use solve_lattice::{INVERSES, LANES, LAST_LANE, Level, SIZES, SLOT};

// Stores slot k, where it is filled: lane by lane, then its size and its inverse. Its leading word is that of slot n - 1 - k of
// `level`.
fn transpose_slot(transposed: &mut Level, level: &Level, n: usize, top: usize, k: usize)
    requires low_blocks { LowBlocks level.now × (n ≤ lanes) × (k < n) }
    requires height { top ≡ greatest level.now n }
    requires before { SlotsSoFar level.now n transposed.old k }
    ensures { SlotsSoFar level.now n transposed.new (k + 1) }
{
    let q = n - 1 - k;
    if level[SIZES + q] == 0 {
        return;
    }
    for i in 0..n {
        // lane i is coordinate n - 1 - k of the block of slot n - 1 - i of the level
        transpose_lane(
            transposed,
            SLOT * k + (LAST_LANE - i),
            level,
            n - 1 - i,
            q,
            top,
        );
    }
    transposed[SIZES + k] = (LANES * top - k) as u64;
    transposed[INVERSES + k] = level[INVERSES + q];
}

// Stores the slots of the second system of a level of n rows, their tails 0, in `transposed`, which is 0. Returns their height.
pub fn lay_slots(transposed: &mut Level, level: &Level, n: usize) -> usize
    requires low_blocks { LowBlocks level.now × (n ≤ lanes) }
    requires zeros { (length transposed.old ≡ level_words) × AtMost 0 transposed.old }
    ensures { (result ≡ greatest level.now n) × SlotsLaid n level.now transposed.new }
{
    let top = greatest_height(level, n);
    for k in 0..n {
        transpose_slot(transposed, level, n, top, k);
    }
    top
}
