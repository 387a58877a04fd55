// A column inserted into a level, and its hand settled.
ghost use Rattle.std.specs.Prelude.{◌≤◌};
ghost use Rattle.solve_lattice.specs.Room.{block_words};
ghost use Rattle.solve_lattice.specs.Memory.{memory, Valid};
ghost use Rattle.solve_lattice.specs.Insertion.{Starts};
ghost use Rattle.solve_levels.specs.Linked.{AfterColumn};

use crate::settling::settle;
use residue::modulus::Modulus;
use solve_lattice::{Block, Hand, Insertion, Level, Tail};

// Inserts the hand, which begins with tail 1, into the slots of `level`, whose tails are 0, and stores the kernel. Returns its
// size.
pub fn insert_column(
    kernel: &mut Block,
    level: &mut Level,
    block: &mut Block,
    tail: &mut Tail,
    hand: Hand,
    modulus: Modulus,
) -> usize
    requires bounds { (hand.size ≤ block_words) }
    requires memory { Valid modulus.p (memory level.old block.old tail.old hand) }
    requires starts { Starts modulus.p (memory level.old block.old tail.old hand) }
    ensures { AfterColumn modulus.p
        (memory level.old block.old tail.old hand)
        level.new kernel.new result }
{
    let mut work = Insertion {
        level,
        block,
        tail,
        hand,
        modulus,
    };
    work.insert();
    settle(kernel, &mut work)
}
