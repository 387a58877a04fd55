// The second system of a level solved: its right side inserted, made monic, and divided.
ghost use Rattle.std.specs.Prelude.{ℕ, ◌<◌, ◌≤◌, length, get_or};
ghost use Rattle.solve_lattice.specs.Room.{rows_words, lanes};
ghost use Rattle.solve_lattice.specs.Memory.{ValidLevel};
ghost use Rattle.solve_second.specs.Side.{sided, side_row};
ghost use Rattle.solve_second.specs.Solved.{HasTops, SecondSolved};

use crate::denominator::second_denominator;
use crate::layout::lay_second;
use crate::product::multiply_block;
use crate::rows::store_rows;
use crate::second_side::Side;
use residue::modulus::Modulus;
use solve_lattice::{Block, LEVEL, Level, PRODUCT, divide};
use vector::find_leading;

// Solves the second system of a level of n rows, with `side` for its right side: stores w, and row k of the solution in `rows` from
// BLOCK * k on. What stood in the first ROWS words of `rows` is lost. The insertion changes what it works on, so it works on
// copies.
pub fn solve_second(
    w: &mut Block,
    rows: &mut [u64],
    level: &Level,
    n: usize,
    side: Side,
    modulus: Modulus,
)
    requires bounds { (n ≤ lanes) × (side_row side < lanes) × ValidLevel modulus.p level.now }
    requires tops { HasTops modulus.p n (sided side level.now) }
    requires room { (rows_words ≤ length rows.old) × ((i : ℕ) → rows_words ≤ i → get_or rows.old i 0 < modulus.p) }
    ensures { SecondSolved modulus.p n (sided side level.now) w.new rows.new }
{
    let mut transposed = [0u64; LEVEL];
    let mut laid = [0u64; PRODUCT];
    lay_second(&mut transposed, &mut laid, level, n, side);
    let found = find_leading(&laid, PRODUCT, modulus);
    let size = found.size;
    let mut next = transposed;
    let mut block = laid;
    let count = second_denominator(w, &mut next, &mut block, found, modulus);
    let mut product = [0u64; PRODUCT];
    multiply_block(&mut product, w, count, &laid, size, modulus);
    let mut quotients = [0u64; PRODUCT];
    divide(&mut quotients, &mut product, PRODUCT, &transposed, modulus);
    store_rows(rows, &quotients, n);
}
