// A slot that was empty is filled with a block, and emptied again.
ghost use Rattle.std.specs.Prelude.{◌≡◌, ◌-◌, ◌%◌, ◌<◌, ◌≤◌, get_or};
ghost use Rattle.vector.specs.Bound.{Reducible};
ghost use Rattle.solve_lattice.specs.Room.{lanes, block_words};
ghost use Rattle.solve_levels.specs.Filled.{filled, emptied};

use residue::modulus::Modulus;
use solve_lattice::{BLOCK, Block, INVERSES, Level, SIZES, SLOT};
use vector::{clear, exchange};

// Fills slot q of `level` with the first `size` words of `block`, reduced; stores their number and the inverse of the last. What is
// then in `block` is left open.
pub fn fill_slot(level: &mut Level, q: usize, block: &mut Block, size: usize, modulus: Modulus)
    requires bounds { (q < lanes) }
    requires block { (size ≤ block_words) × Reducible modulus.p block.old block_words }
    requires last { (0 < size) × (0 < get_or block.old (size - 1) 0 % modulus.p) }
    ensures { level.new ≡ filled modulus.p level.old q block.old size }
{
    let last = modulus.reduce(block[size - 1]);
    exchange(block, level, SLOT * q, size, modulus);
    level[SIZES + q] = size as u64;
    level[INVERSES + q] = modulus.inverse(last);
}

// Empties slot q of `level`: clears its block, and stores the inverse that stood there before.
pub fn empty_slot(level: &mut Level, q: usize, inverse: u64)
    requires { q < lanes }
    ensures { level.new ≡ emptied level.old q inverse }
{
    clear(level, SLOT * q, BLOCK);
    level[SIZES + q] = 0;
    level[INVERSES + q] = inverse;
}
