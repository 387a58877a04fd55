// A vector divided by the slots of a level.
ghost use Rattle.std.specs.Prelude.{◌*◌, ◌≤◌, length};
ghost use Rattle.vector.specs.Bound.{AtMost};
ghost use Rattle.solve_lattice.specs.Room.{lanes, product_words, most_places};
ghost use Rattle.solve_lattice.specs.Memory.{height, ValidLevel, ZeroFrom, Sums};
ghost use Rattle.solve_lattice.specs.Quotients.{BlockDivided};

use crate::pivot::pivot_row;
use crate::room::{LAST_LANE, Level, SIZES};
use crate::step::{find_rest, take_multiple};
use residue::modulus::Modulus;
use vector::find_leading;

// Takes multiples of the slots of `level` off `block`, of at most n words, until nothing is left or the slot at the pivot is empty
// or longer. Adds the factors to `quotients`, at the place of their degree in the lane of the slot's row. Returns how many words
// are left.
pub fn divide(
    quotients: &mut [u64],
    block: &mut [u64],
    n: usize,
    level: &Level,
    modulus: Modulus,
) -> usize
    requires level { ValidLevel modulus.p level.now }
    requires block { (height n * lanes ≤ length block.old) × (n ≤ product_words)
        × ZeroFrom modulus.p block.old 0 product_words n × Sums modulus.p most_places block.old }
    requires quotients { (n ≤ length quotients.old) × AtMost 0 quotients.old }
    ensures { BlockDivided modulus.p level.now block.old block.new
        quotients.new result }
{
    let mut found = find_leading(block, n, modulus);
    while 0 < found.size {
        let k = found.size;
        let q = pivot_row(k);
        let size = level[SIZES + q] as usize;
        if size == 0 || k < size {
            return k;
        }
        let left = take_multiple(block, level, found, modulus);
        let place = k - size + (LAST_LANE - q);
        quotients[place] = modulus.add(quotients[place], left.factor);
        found = find_rest(block, left.size, left.leading, left.unseen, modulus);
    }
    0
}
