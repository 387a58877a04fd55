// The writer of systems.
ghost use Rattle.std.specs.Prelude.{length};
ghost use Rattle.words.specs.Limits.{office};
ghost use Rattle.writer.specs.Writing.{write_systems, Writes};
ghost use Rattle.writer.specs.Values.{head_with, system_in_arrays};

use crate::format::{Kind, SYSTEM_VALUES};
use crate::values::write_shaped;
use answers::number::one_to;
use answers::{Reason, Refusal};
use limits::Office;

// Tries the number of right sides, 1, then writes a system over the first of the lent words. Polynomial k, of A row by row and then
// of the right sides one after another, has `sizes[k]` coefficients, lowest power first, from
// `coefficients[Office::COEFFICIENTS * k]` on.
pub fn write_system(
    words: &mut [u32],
    sizes: &[usize; Office::SYSTEM_POLYNOMIALS],
    coefficients: &[u64; SYSTEM_VALUES],
    rows: u32,
    columns: u32,
    sides: u32,
    modulus: u32,
) -> Result<usize, Refusal>
    ensures { Writes
        (write_systems office (length words.old)
        (system_in_arrays office (head_with modulus rows columns sides) sizes.now coefficients.now))
        words.old result words.new }
{
    if !one_to(Office::SIDES as u32, sides) {
        return Err(Refusal {
            reason: Reason::BadSystemHead,
            place: 0,
        });
    }
    write_shaped(
        words,
        sizes,
        coefficients,
        Kind::System(sides),
        rows,
        columns,
        modulus,
    )
}
