// The right side of the second system: the tails of a level's slots, or one row of their blocks, as one flat block with the
// weights of the transposed slots.
ghost use Rattle.std.specs.Prelude.{◌≡◌, ℕ, ◌+◌, ◌<◌, ◌≤◌, length, get_or};
ghost use Rattle.vector.specs.Bound.{AtMost};
ghost use Rattle.solve_lattice.specs.Room.{product_words, lanes};
ghost use Rattle.solve_second.specs.Greatest.{LowBlocks, greatest};
ghost use Rattle.solve_second.specs.SideFilling.{TailsEnd, SideFilling};
ghost use Rattle.solve_second.specs.Side.{sided, side_row};
ghost use Rattle.solve_second.specs.Words.{side_word};

use crate::height::slot_height;
use crate::lane::{copy_lane, transpose_lane};
use solve_lattice::{BLOCK, LANES, LAST_LANE, Level, Product, SIZES, SLOT, TAIL_SIZES};

// The right side of a second system.
#[derive(Clone, Copy)]
pub enum Side {
    // The tails of the level's slots.
    Tails,
    // This row of their blocks.
    Row(usize),
}

// Stores the tail of slot n - 1 - i of the level into lane i, where the slot is filled.
fn tail_lane(block: &mut Product, level: &Level, n: usize, top: usize, i: usize)
    requires low_blocks { LowBlocks level.now × TailsEnd level.now × (n ≤ lanes) × (i < n) }
    requires height { top ≡ greatest level.now n }
    requires before { SideFilling level.now n block.old block.old i }
    ensures { SideFilling level.now n block.old block.new (i + 1) }
{
    let q = n - 1 - i;
    if level[SIZES + q] == 0 {
        return;
    }
    let lift = top - slot_height(level, q);
    let size = level[TAIL_SIZES + q] as usize;
    copy_lane(
        block,
        LAST_LANE - i + LANES * lift,
        level,
        SLOT * q + BLOCK,
        1,
        size,
    );
}

// Stores lane i of the right side.
fn side_lane(block: &mut Product, level: &Level, n: usize, side: Side, top: usize, i: usize)
    requires low_blocks { LowBlocks level.now × TailsEnd (sided side level.now) × (side_row side < lanes) × (n ≤ lanes) × (i < n) }
    requires height { top ≡ greatest level.now n }
    requires before { SideFilling (sided side level.now) n block.old block.old i }
    ensures { SideFilling (sided side level.now) n block.old block.new (i + 1) }
{
    match side {
        Side::Tails => tail_lane(block, level, n, top, i),
        Side::Row(h) => transpose_lane(block, LAST_LANE - i, level, n - 1 - i, h, top),
    }
}

// Stores the right side in `block`, which is 0; `top` is the height of the transposed slots.
pub fn lay_side(block: &mut Product, level: &Level, n: usize, side: Side, top: usize)
    requires low_blocks { LowBlocks level.now × TailsEnd (sided side level.now) × (side_row side < lanes) × (n ≤ lanes) }
    requires height { top ≡ greatest level.now n }
    requires zeros { (length block.old ≡ product_words) × AtMost 0 block.old }
    ensures { (length block.new ≡ product_words)
        × ((x : ℕ) → x < product_words → get_or block.new x 0 ≡ side_word (sided side level.now) n x) }
{
    for i in 0..n {
        side_lane(block, level, n, side, top, i);
    }
}
