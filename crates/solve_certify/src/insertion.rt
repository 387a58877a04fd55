// The right side of a system inserted into its last level.
ghost use Rattle.std.specs.Prelude.{◌≡◌, ◌≤◌, length};
ghost use Rattle.vector.specs.Bound.{AtMost};
ghost use Rattle.solve_lattice.specs.Room.{lanes, tail_words, level_words};
ghost use Rattle.solve_lattice.specs.Memory.{ValidLevel};
ghost use Rattle.solve_lattice.specs.Input.{ValidInput};
ghost use Rattle.solve_certify.specs.Inserted.{LastInserted};

use residue::modulus::Modulus;
use solve_lattice::{BLOCK, Input, Insertion, Level, Tail};
use solve_levels::start_column;
use vector::{copy, find_leading};

// Inserts the right side, which stands behind the columns of `input`, with tail 1 into a copy of `level`: stores the slots in
// `next` and the tail that is left in `tail`, which are 0. Returns how many words are left of the right side's block.
pub fn insert_side(
    next: &mut Level,
    tail: &mut Tail,
    level: &Level,
    input: &Input,
    columns: usize,
    modulus: Modulus,
) -> usize
    requires bounds { (columns ≤ lanes) × ValidInput modulus.p input.now }
    requires level { ValidLevel modulus.p level.now }
    requires next { (length next.old ≡ level_words) × AtMost 0 next.old }
    requires tail { (length tail.old ≡ tail_words) × AtMost 0 tail.old }
    ensures { LastInserted modulus.p columns input.now level.now next.new
        tail.new result }
{
    let mut side = [0u64; BLOCK];
    copy(&mut side, 0, input, BLOCK * columns, BLOCK);
    let found = find_leading(&side, BLOCK, modulus);
    let start = start_column(next, tail, level, &side, found.size, modulus);
    let mut work = Insertion {
        level: next,
        block: &mut side,
        tail,
        hand: start,
        modulus,
    };
    work.insert();
    work.hand.size
}
