// A level copied without its tails.
ghost use Rattle.std.specs.Prelude.{◌≡◌, ℕ, ◌<◌, ◌≤◌, length};
ghost use Rattle.vector.specs.Bound.{AtMost};
ghost use Rattle.solve_lattice.specs.Room.{lanes, block_words, level_words};
ghost use Rattle.solve_lattice.specs.Memory.{slot_size};
ghost use Rattle.solve_levels.specs.Copied.{Copied};

use solve_lattice::{INVERSES, LANES, Level, SIZES, SLOT};
use vector::copy;

// Copies of each slot of `level` the words of its block that count, their number and the inverse of the last to `next`, which is 0:
// tails stay 0.
pub fn copy_level(next: &mut Level, level: &Level)
    requires blocks { (q : ℕ) → q < lanes → slot_size level.now q ≤ block_words }
    requires zeros { (length next.old ≡ level_words) × AtMost 0 next.old }
    ensures { Copied level.now lanes next.new }
{
    for q in 0..LANES {
        let size = level[SIZES + q] as usize;
        copy(next, SLOT * q, level, SLOT * q, size);
        next[SIZES + q] = level[SIZES + q];
        next[INVERSES + q] = level[INVERSES + q];
    }
}
