// The writer of certificates.
ghost use Rattle.std.specs.Prelude.{length};
ghost use Rattle.words.specs.Limits.{office};
ghost use Rattle.answers.specs.Answer.{form_of};
ghost use Rattle.writer.specs.Writing.{write_certificate, Writes};
ghost use Rattle.writer.specs.Values.{shape_with, certificate_in};

use crate::format::{CERTIFICATE_VALUES, Kind};
use crate::values::write_shaped;
use answers::{Form, Refusal};
use limits::Office;

// Writes a certificate for a system of p, rows and columns over the first of the lent words. Polynomial k, of d, N, w and Z or else
// of q, has `sizes[k]` coefficients, lowest power first, from `coefficients[STRIDE * k]` on.
pub fn write_certificate(
    words: &mut [u32],
    sizes: &[usize; Office::CERTIFICATE_POLYNOMIALS],
    coefficients: &[u64; CERTIFICATE_VALUES],
    form: Form,
    rows: u32,
    columns: u32,
    modulus: u32,
) -> Result<usize, Refusal>
    ensures { Writes
        (write_certificate office (length words.old) (shape_with modulus rows columns)
        (certificate_in (shape_with modulus rows columns) (form_of form) sizes.now coefficients.now))
        words.old result words.new }
{
    write_shaped(
        words,
        sizes,
        coefficients,
        Kind::Certificate(form),
        rows,
        columns,
        modulus,
    )
}
