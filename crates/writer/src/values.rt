// From values in arrays to words, or to a refusal: what the writers of systems and of certificates have in common.
ghost use Rattle.std.specs.Prelude.{◌*◌, ◌≤◌, length};
ghost use Rattle.words.specs.Limits.{office, words_for};
ghost use Rattle.words.specs.Word.{payload_bound};
ghost use Rattle.writer.specs.Values.{shape_with};
ghost use Rattle.writer.specs.Formats.{KindWithin, write_framed, format_of, most_of, stride_of};
ghost use Rattle.writer.specs.Writing.{refuse_shape, Writes};

use crate::format::{Kind, format_for};
use crate::shape::try_shape;
use answers::{Reason, Refusal};
use write_frame::format::Polynomials;
use write_frame::frame::write_framed;
use write_frame::trial::try_polynomials;

// Tries polynomials, 6 to 8, or 26 to 28 where the format is a certificate's, then the room, 11; where nothing is refused, writes the
// words.
fn write_values(words: &mut [u32], polynomials: Polynomials, modulus: u64) -> Result<usize, Refusal>
    requires { (modulus ≤ payload_bound)
        × (words_for polynomials.format.count polynomials.format.limit ≤ polynomials.format.longest) }
    ensures { Writes
        (write_framed polynomials.entry.format modulus (length words.old) polynomials.entry.sizes.now polynomials.entry.coefficients.now)
        words.old result words.new }
{
    try_polynomials(polynomials, modulus)?;
    if words.len() < polynomials.format.longest {
        return Err(Refusal {
            reason: Reason::SpaceShort,
            place: 0,
        });
    }
    Ok(write_framed(words, polynomials))
}

// Tries a shape, 2, then 3; where nothing is refused, writes the words of that kind that the shape and the polynomials make.
// The arrays stand apart, as the entries take them: how they lie is known only of a shape that is tried.
pub fn write_shaped(
    words: &mut [u32],
    sizes: &[usize],
    coefficients: &[u64],
    kind: Kind,
    rows: u32,
    columns: u32,
    modulus: u32,
) -> Result<usize, Refusal>
    requires { KindWithin office kind × (most_of office kind ≤ length sizes.now)
        × (stride_of office kind * most_of office kind ≤ length coefficients.now) }
    ensures { Writes
        (refuse_shape office (shape_with modulus rows columns)
        (write_framed (format_of office (shape_with modulus rows columns) kind) modulus (length words.old)
        sizes.now coefficients.now))
        words.old result words.new }
{
    try_shape(rows, columns, modulus)?;
    let format = format_for(kind, rows, columns, modulus);
    let polynomials = Polynomials {
        sizes,
        coefficients,
        format,
    };
    write_values(words, polynomials, modulus as u64)
}
