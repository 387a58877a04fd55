// Trying polynomials in arrays, one after another (document 01, "Turned back").
ghost use Rattle.std.specs.Prelude.{◌≡◌, ◌+◌, ◌<◌, length};
ghost use Rattle.modular.specs.Bits.{bound32};
ghost use Rattle.answers.specs.Answer.{by_of, verdict_outcome};
ghost use Rattle.write_frame.specs.Framing.{entries_in};
ghost use Rattle.write_frame.specs.Trial.{passed, refuse_coefficients, refuse_polynomials};

use crate::format::Polynomials;
use answers::{Fault, Of, Reason, Refusal};

// Tries the coefficients of f, the first of whose words would stand at `place`: 7 and 8, or 27 and 28 for a certificate.
fn try_coefficients(f: &[u64], of: Of, place: usize, modulus: u64) -> Result<(), Refusal>
    requires { place + length f.now < bound32 }
    ensures { verdict_outcome result ≡ refuse_coefficients modulus (by_of of) place f.now passed }
{
    for (i, a) in f.iter().enumerate() {
        if modulus <= *a {
            return Err(Refusal {
                reason: Reason::Words(of, Fault::CoefficientTooLarge),
                place: place + i,
            });
        }
        if *a == 0 && i + 1 == f.len() {
            return Err(Refusal {
                reason: Reason::Words(of, Fault::LastCoefficientZero),
                place: place + i,
            });
        }
    }
    Ok(())
}

// Tries the polynomials, the first of whose words would stand at place 1: 6 to 8, or 26 to 28 where the format is a certificate's.
pub fn try_polynomials(polynomials: Polynomials, modulus: u64) -> Result<(), Refusal>
    ensures { verdict_outcome result ≡ refuse_polynomials modulus polynomials.entry.format.limit (by_of polynomials.entry.format.of) 1
        (entries_in polynomials.entry.format polynomials.entry.sizes.now polynomials.entry.coefficients.now) passed }
{
    let Polynomials {
        sizes,
        coefficients,
        format,
    } = polynomials;
    let mut place = 1;
    for k in 0..format.count {
        let size = sizes[k];
        if format.limit < size {
            return Err(Refusal {
                reason: Reason::Words(format.of, Fault::TooManyCoefficients),
                place,
            });
        }
        let from = format.stride * k;
        let f = &coefficients[from..from + size];
        try_coefficients(f, format.of, place + 1, modulus)?;
        place += 1 + size;
    }
    Ok(())
}
