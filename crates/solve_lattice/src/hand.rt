// What the code keeps of the vector in hand beside its words.
ghost use Rattle.std.specs.Prelude.{◌≡◌, set};

use crate::room::Tail;
use vector::Leading;

// The number of words of the block up to the last that is not 0 modulo p, that word modulo p, and a number of words of the
// tail behind which all are 0 modulo p. A size of 0 is that of a block that is zero, the size of the zero polynomial.
#[derive(Clone, Copy)]
pub struct Hand {
    pub size: usize,
    pub leading: u64,
    pub tail_size: usize,
}

impl Hand {
    // Makes the hand (block | 1) at the beginning of an insertion: stores 1 in `tail`, which is 0. `found` is the size and the last
    // word of the block.
    pub fn begin(tail: &mut Tail, found: Leading) -> Hand
        ensures tail { tail.new ≡ set tail.old 0 1 }
        ensures hand { result ≡ record { size = found.size; leading = found.value; tail_size = 1 } }
    {
        tail[0] = 1;
        Hand {
            size: found.size,
            leading: found.value,
            tail_size: 1,
        }
    }
}
