// The polynomials that a writer is given.
ghost use Rattle.std.specs.Prelude.{◌*◌, ◌≤◌, length};
ghost use Rattle.words.specs.Limits.{office};
ghost use Rattle.limits.specs.Counts.{system_polynomials};

use crate::input::{WORDS, size_at, unpack_coefficients, word};

// The place of the first polynomial in a case.
const FIRST: usize = 6;

// One more than the largest word.
const BOUND: u64 = 4294967296;

// Fills `sizes` and `coefficients` with the polynomials of the case: polynomial k has up to `limit` coefficients, from the place
// stride * k on.
pub fn unpack(
    sizes: &mut [usize],
    coefficients: &mut [u64],
    case: &[u32; WORDS],
    stride: usize,
    limit: usize,
)
    requires { (limit ≤ office.certificate_coefficients) × (limit ≤ stride) × (length sizes.old ≤ system_polynomials)
        × (stride * length sizes.old ≤ length coefficients.old) }
{
    let mut place = FIRST;
    for k in 0..sizes.len() {
        sizes[k] = word(case, place) as usize;
        let n = size_at(case, place, limit);
        let from = stride * k;
        unpack_coefficients(&mut coefficients[from..from + n], case, place + 1, BOUND);
        place += 1 + n;
    }
}
