// The height of the second system's slots: that of the level's highest slot, so that no step works on degrees that are all 0.
ghost use Rattle.std.specs.Prelude.{◌≡◌, ◌<◌, ◌≤◌};
ghost use Rattle.solve_lattice.specs.Memory.{height, slot_size};
ghost use Rattle.solve_second.specs.Greatest.{LowBlocks, greatest};
ghost use Rattle.solve_lattice.specs.Room.{lanes};

use solve_lattice::{LANES, Level, SIZES};

// Counts the degrees of the block of slot q.
pub fn slot_height(level: &Level, q: usize) -> usize
    requires { (q < lanes) × LowBlocks level.now }
    ensures { result ≡ height (slot_size level.now q) }
{
    (level[SIZES + q] as usize).div_ceil(LANES)
}

// Returns the greatest height of the first n slots.
pub fn greatest_height(level: &Level, n: usize) -> usize
    requires { (n ≤ lanes) × LowBlocks level.now }
    ensures { result ≡ greatest level.now n }
{
    (0..n).map(|q| slot_height(level, q)).max().unwrap_or(0)
}
