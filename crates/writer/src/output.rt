// A certificate as the solver leaves it: polynomial k has its coefficients, at most 121, from the word STRIDE * k on, and no size
// beside them.
ghost use Rattle.std.specs.Prelude.{◌≡◌, ◌≤◌, ◌<◌, length};
ghost use Rattle.limits.specs.Counts.{certificate_polynomials};
ghost use Rattle.words.specs.Limits.{office, longest_certificate};
ghost use Rattle.words.specs.Word.{AllBelow, payload_bound};
ghost use Rattle.words.specs.Frame.{framed_words};
ghost use Rattle.words.specs.Certificate.{form_word, entry_count};
ghost use Rattle.answers.specs.Answer.{shape_of, form_of};
ghost use Rattle.write_frame.specs.Framing.{Wrote};
ghost use Rattle.writer.specs.Output.{size_in, SizesTaken, polynomials_of};

use crate::format::{CERTIFICATE_VALUES, STRIDE, certificate_format};
use answers::{Form, Shape};
use limits::Office;
use write_frame::format::Polynomials;
use write_frame::frame::write_framed;

// Returns the number of the coefficients of polynomial k: zeros at the end do not count.
pub fn size_of(output: &[u64; CERTIFICATE_VALUES], k: usize) -> usize
    requires { k < certificate_polynomials }
    ensures { result ≡ size_in output.now k }
{
    let from = STRIDE * k;
    output[from..from + Office::CERTIFICATE_COEFFICIENTS as usize]
        .iter()
        .rposition(|a| *a != 0)
        .map_or(0, |last| last + 1)
}

// Stores the sizes of the first `count` polynomials.
fn store_sizes(
    sizes: &mut [usize; Office::CERTIFICATE_POLYNOMIALS],
    output: &[u64; CERTIFICATE_VALUES],
    count: usize,
)
    requires { (count ≤ certificate_polynomials) × (length sizes.old ≡ certificate_polynomials) }
    ensures { SizesTaken output.now sizes.new count
        × (length sizes.new ≡ certificate_polynomials) }
{
    for k in 0..count {
        sizes[k] = size_of(output, k);
    }
}

// Writes the certificate in `output` for a system of that shape over the first of the lent words. Returns the number of its words.
pub fn write_output(
    words: &mut [u32],
    output: &[u64; CERTIFICATE_VALUES],
    form: Form,
    shape: Shape,
) -> usize
    requires { (shape.rows ≤ office.rows) × (shape.columns ≤ office.columns) × AllBelow payload_bound output.now
        × (longest_certificate office ≤ length words.old) }
    ensures { Wrote
        (framed_words (form_word (form_of form))
        (polynomials_of output.now 0 (entry_count (shape_of shape) (form_of form))))
        words.old words.new result }
{
    let format = certificate_format(form, shape.rows as u32, shape.columns as u32);
    let mut sizes = [0; Office::CERTIFICATE_POLYNOMIALS];
    store_sizes(&mut sizes, output, format.count);
    let polynomials = Polynomials {
        sizes: &sizes,
        coefficients: output,
        format,
    };
    write_framed(words, polynomials)
}
