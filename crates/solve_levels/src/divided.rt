// A column divided by the slots of a level.
ghost use Rattle.std.specs.Prelude.{ℕ, ◌+◌, ◌<◌, ◌≤◌, get_or};
ghost use Rattle.vector.specs.Bound.{AtMost};
ghost use Rattle.solve_lattice.specs.Room.{block_words, input_words};
ghost use Rattle.solve_lattice.specs.Memory.{ValidLevel};
ghost use Rattle.solve_levels.specs.Column.{DividedByLevel};

use residue::modulus::Modulus;
use solve_lattice::{BLOCK, Block, Input, Level, divide};
use vector::copy;

// Divides the block of `input` from `at` on by the slots of `level`. Stores what is left in `rest`, in sums that are not reduced,
// and the quotients in `factors`, which are 0. Returns how many words are left.
pub fn divide_column(
    rest: &mut Block,
    factors: &mut Block,
    input: &Input,
    at: usize,
    level: &Level,
    modulus: Modulus,
) -> usize
    requires level { ValidLevel modulus.p level.now }
    requires column { (at + block_words ≤ input_words) × ((i : ℕ) → get_or input.now i 0 < modulus.p) }
    requires areas { AtMost 0 rest.old × AtMost 0 factors.old }
    ensures { DividedByLevel modulus.p level.now input.now at rest.new
        factors.new result }
{
    copy(rest, 0, input, at, BLOCK);
    divide(factors, rest, BLOCK, level, modulus)
}
