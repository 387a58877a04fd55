// The hand at the beginning of an insertion: a column with tail 1.
ghost use Rattle.std.specs.Prelude.{◌≡◌, ◌-◌, ◌≤◌, set};
ghost use Rattle.vector.specs.Bound.{Reducible};
ghost use Rattle.solve_lattice.specs.Room.{block_words};
ghost use Rattle.solve_levels.specs.Begun.{begun};

use residue::modulus::Modulus;
use solve_lattice::{Block, Hand, Tail};
use vector::Leading;

// Makes the hand (column | 1): stores 1 in `tail`, which is 0. The first `size` words of `column` are those that count; it is the
// hand's block as it stands. Returns what the hand is.
pub fn lay_hand(tail: &mut Tail, column: &Block, size: usize, modulus: Modulus) -> Hand
    requires bounds { (size ≤ block_words) }
    requires sums { Reducible modulus.p column.now block_words }
    ensures tail { tail.new ≡ set tail.old 0 1 }
    ensures hand { result ≡ begun modulus.p column.now size }
{
    let value = modulus.reduce(column[size.saturating_sub(1)]);
    Hand::begin(tail, Leading { size, value })
}
