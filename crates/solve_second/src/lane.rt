// One lane of a flat block written.
ghost use Rattle.std.specs.Prelude.{◌≡◌, ℕ, ◌+◌, ◌-◌, ◌*◌, ◌<◌, ◌≤◌, length, get_or};
ghost use Rattle.solve_lattice.specs.LaneStored.{lane};
ghost use Rattle.solve_lattice.specs.Memory.{height, slot_size};
ghost use Rattle.solve_lattice.specs.Room.{sizes_from, lanes};
ghost use Rattle.solve_second.specs.Greatest.{LowBlocks};
ghost use Rattle.solve_second.specs.Words.{block_word};

use crate::height::slot_height;
use solve_lattice::{LANES, LAST_LANE, Level, SLOT};

// Stores level[from + step e] at block[to + LANES e] for e below `count`.
pub fn copy_lane(
    block: &mut [u64],
    to: usize,
    level: &Level,
    from: usize,
    step: usize,
    count: usize,
)
    requires by_index { (e : ℕ) → e < count → from + step * e < sizes_from }
    requires room { to + lanes * count < length block.old + lanes }
    ensures { block.new
        ≡ lane (λ e. get_or level.now (from + step * e) 0) block.old to count }
{
    for e in 0..count {
        block[to + LANES * e] = level[from + step * e];
    }
}

// Stores row r of the block of slot q into the lane that begins at `to`, lifted to end where `top` degrees do.
pub fn transpose_lane(block: &mut [u64], to: usize, level: &Level, q: usize, r: usize, top: usize)
    requires low_blocks { LowBlocks level.now × (q < lanes) × (r < lanes) × (height (slot_size level.now q) ≤ top) }
    requires room { to + lanes * top < length block.old + lanes }
    ensures { block.new ≡ lane (λ e. block_word level.now q r e) block.old
        (to + lanes * (top - height (slot_size level.now q))) (height (slot_size level.now q)) }
{
    let height = slot_height(level, q);
    copy_lane(
        block,
        to + LANES * (top - height),
        level,
        SLOT * q + (LAST_LANE - r),
        LANES,
        height,
    );
}
