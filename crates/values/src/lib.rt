// The values of a system or a certificate that is read, stored in arrays as the writers take them. The entries are `load_system`
// and `load_certificate`, for every input.
#![tactic(auto)]

mod entries;

ghost use Rattle.words.specs.Limits.{office};
ghost use Rattle.answers.specs.Answer.{shape_of};
ghost use Rattle.values.specs.Loading.{LoadsSystem, LoadsCertificate};

use crate::entries::load_entries;
use answers::{Form, Head, Refusal, Shape};
use limits::Office;
use reader::certificate::read_certificate;
use reader::system::read_system;
use writer::format::{CERTIFICATE_VALUES, Kind, SYSTEM_VALUES, format_for};
use writer::shape::try_shape;

// Reads a system and stores its values. Polynomial k, of A row by row and then of the right sides one after another, has its size
// in `sizes[k]`, and its coefficients, lowest power first, from `values[Office::COEFFICIENTS * k]` on.
pub fn load_system(
    sizes: &mut [usize; Office::SYSTEM_POLYNOMIALS],
    values: &mut [u64; SYSTEM_VALUES],
    words: &[u32],
) -> Result<Head, Refusal>
    ensures { LoadsSystem office words.now result
        sizes.old sizes.new values.old values.new }
{
    let head = read_system(words, Office::limits())?;
    let shape = head.shape;
    let format = format_for(
        Kind::System(head.sides as u32),
        shape.rows as u32,
        shape.columns as u32,
        shape.modulus as u32,
    );
    load_entries(sizes, values, words, format);
    Ok(head)
}

// Tries p, n and m, 2, then 3, at place 0; then reads a certificate for a system of that shape and stores its values. Polynomial k,
// of d, N, w and Z or else of q, has its size in `sizes[k]`, and its coefficients, lowest power first, from `values[STRIDE * k]`
// on.
pub fn load_certificate(
    sizes: &mut [usize; Office::CERTIFICATE_POLYNOMIALS],
    values: &mut [u64; CERTIFICATE_VALUES],
    words: &[u32],
    shape: Shape,
) -> Result<Form, Refusal>
    ensures { LoadsCertificate office (shape_of shape) words.now result
        sizes.old sizes.new values.old values.new }
{
    let rows = shape.rows as u32;
    let columns = shape.columns as u32;
    let modulus = shape.modulus as u32;
    try_shape(rows, columns, modulus)?;
    let form = read_certificate(words, shape, Office::limits())?;
    let format = format_for(Kind::Certificate(form), rows, columns, modulus);
    load_entries(sizes, values, words, format);
    Ok(form)
}
