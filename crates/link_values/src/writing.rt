// A system's file from values.
ghost use Rattle.std.specs.Prelude.{length};
ghost use Rattle.words.specs.Limits.{office};
ghost use Rattle.answers.specs.Answer.{counted_outcome};
ghost use Rattle.writer.specs.Values.{head_with, system_in_arrays};
ghost use Rattle.link_values.specs.Files.{write_systems_file};
ghost use Rattle.link_values.specs.Giving.{GivesList, GivesPacked};

use answers::packed::pack_counted;
use answers::{Reason, Refusal};
use files::writing::write_bytes;
use limits::Office;
use writer::format::SYSTEM_VALUES;
use writer::system::write_system;

// Writes the file of a system over the first of the lent bytes. Returns the number of its bytes. The values are as `write_system`
// takes them.
fn write_to_bytes(
    bytes: &mut [u8],
    sizes: &[usize; Office::SYSTEM_POLYNOMIALS],
    coefficients: &[u64; SYSTEM_VALUES],
    rows: u32,
    columns: u32,
    sides: u32,
    modulus: u32,
) -> Result<usize, Refusal>
    ensures { GivesList
        (write_systems_file office (length bytes.old)
        (system_in_arrays office (head_with modulus rows columns sides) sizes.now coefficients.now))
        bytes.old bytes.new (counted_outcome result) }
{
    let mut words = [0u32; Office::SYSTEM_WORDS];
    let count = write_system(
        &mut words,
        sizes,
        coefficients,
        rows,
        columns,
        sides,
        modulus,
    )?;
    if bytes.len() < Office::SYSTEM_BYTES {
        return Err(Refusal {
            reason: Reason::SpaceShort,
            place: 0,
        });
    }
    Ok(write_bytes(bytes, &words[..count]))
}

// Writes the file of a system, and gives the number of its bytes or the refusal as one number.
pub fn write_system_file(
    bytes: &mut [u8],
    sizes: &[usize; Office::SYSTEM_POLYNOMIALS],
    coefficients: &[u64; SYSTEM_VALUES],
    rows: u32,
    columns: u32,
    sides: u32,
    modulus: u32,
) -> u64
    ensures { GivesPacked
        (write_systems_file office (length bytes.old)
        (system_in_arrays office (head_with modulus rows columns sides) sizes.now coefficients.now))
        bytes.old bytes.new result }
{
    pack_counted(write_to_bytes(bytes, sizes, coefficients, rows, columns, sides, modulus))
}
