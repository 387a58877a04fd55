// A vector inserted into the slots of a level.
ghost use Rattle.solve_lattice.specs.Memory.{memory, Valid};
ghost use Rattle.solve_lattice.specs.Moves.{GoesOn, Lengthened, Stepped};
ghost use Rattle.solve_lattice.specs.Insertion.{Starts, Inserts};

use crate::hand::Hand;
use crate::pivot::pivot_row;
use crate::room::{Level, SIZES, Tail};
use residue::modulus::Modulus;

// What an insertion works on: a level, the words of the vector in hand and what is kept beside them, and the modulus.
#[derive(Drop)]
pub struct Insertion<'a> {
    pub level: &'a mut Level,
    pub block: &'a mut [u64],
    pub tail: &'a mut Tail,
    pub hand: Hand,
    pub modulus: Modulus,
    pub ghost valid: { Valid modulus.p (memory level.now block.now tail.now hand) },
}

impl Insertion<'_> {
    ghost use Rattle.solve_lattice.specs.References.{memory_of, SameReferences};

    // Exchanges the hand with the slot at its pivot where that is longer.
    pub fn lengthen(&mut self)
        requires filled { GoesOn self.old.modulus.p (memory_of self.old) }
        ensures lengthened { Lengthened self.old.modulus.p (memory_of self.old) (memory_of self.new) }
        ensures same { SameReferences self.old self.new }
    {
        let k = self.hand.size;
        let q = pivot_row(k);
        if k < self.level[SIZES + q] as usize {
            self.swap_with_slot();
        }
    }

    // Makes one turn of `insert`, where the slot at the pivot is filled: makes the longer of the hand and that slot the hand, and
    // takes the multiple of the other off it that takes its leading word away.
    pub fn turn(&mut self)
        requires filled { GoesOn self.old.modulus.p (memory_of self.old) }
        ensures stepped { Stepped self.old.modulus.p (memory_of self.old) (memory_of self.new) }
        ensures same { SameReferences self.old self.new }
    {
        self.lengthen();
        self.take_from_hand();
    }

    // Inserts the hand into the slots of the level: turns until its block is zero or the slot at its pivot is empty.
    pub fn insert(&mut self)
        requires starts { Starts self.old.modulus.p (memory_of self.old) }
        ensures inserts { Inserts self.old.modulus.p (memory_of self.old) (memory_of self.new) }
        ensures same { SameReferences self.old self.new }
    {
        while 0 < self.hand.size {
            let q = pivot_row(self.hand.size);
            if self.level[SIZES + q] == 0 {
                return;
            }
            self.turn();
        }
    }
}
