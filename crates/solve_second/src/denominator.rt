// The denominator of the second system's solution.
ghost use Rattle.solve_lattice.specs.Memory.{Valid};
ghost use Rattle.solve_lattice.specs.Insertion.{Starts};
ghost use Rattle.solve_second.specs.Laid.{starting_memory};
ghost use Rattle.solve_second.specs.Denominator.{TailFound};

use crate::monic::make_monic;
use residue::modulus::Modulus;
use solve_lattice::{Block, Hand, Insertion, Level, Product, TAIL};
use vector::Leading;

// Inserts `block` with tail 1 into `level` and stores the tail that is left, made monic, in w. Returns the number of its
// coefficients. Changes `level` and `block`.
pub fn second_denominator(
    w: &mut Block,
    level: &mut Level,
    block: &mut Product,
    found: Leading,
    modulus: Modulus,
) -> usize
    requires memory { Valid modulus.p (starting_memory level.old block.old found) }
    requires starts { Starts modulus.p (starting_memory level.old block.old found) }
    ensures { TailFound modulus.p (starting_memory level.old block.old found) w.new result }
{
    let mut tail = [0u64; TAIL];
    let hand = Hand::begin(&mut tail, found);
    let mut work = Insertion {
        level,
        block,
        tail: &mut tail,
        hand,
        modulus,
    };
    work.insert();
    make_monic(w, &tail, modulus)
}
