// What an insertion leaves in the hand goes where it belongs: into the empty slot at its pivot, or to the kernel.
ghost use Rattle.solve_lattice.specs.References.{memory_of, SameReferences};
ghost use Rattle.solve_levels.specs.Settled.{InsertionStopped, Settled};

use solve_lattice::{BLOCK, Block, Insertion};
use vector::{clear, find_leading, store_each};

// Settles the hand: where it is stuck, it fills the slot at its pivot and the kernel is 0; where its block is zero, the kernel is
// its tail. Returns the size of the kernel.
pub fn settle(kernel: &mut Block, work: &mut Insertion) -> usize
    requires stopped { InsertionStopped work.old.modulus.p (memory_of work.old) }
    ensures settled { Settled work.old.modulus.p (memory_of work.old) work.new.level.now kernel.new result }
    ensures same { SameReferences work.old work.new }
{
    if work.hand.size == 0 {
        let modulus = work.modulus;
        let tail = &*work.tail;
        store_each(kernel, 0, BLOCK, |j| modulus.reduce(tail[j]));
        return find_leading(tail, BLOCK, modulus).size;
    }
    work.swap_with_slot();
    clear(kernel, 0, BLOCK);
    0
}
