// Reading one polynomial, and several in a row, from the first word of a part of the words.
ghost use Rattle.std.specs.Prelude.{◌≡◌, ◌≤◌, ◌<◌, ◌+◌, length};
ghost use Rattle.words.specs.Reading.{used, used_from};
ghost use Rattle.words.specs.Polynomial.{coefficients_from, polynomial_from, polynomials_from};
ghost use Rattle.words.specs.Word.{payload_bound};
ghost use Rattle.answers.specs.Answer.{used_outcome};

use crate::word::{kind_of, payload_of};
use answers::{Fault, Misread};

// Returns the fault, `by` words later.
pub(crate) fn later(misread: Misread, by: usize) -> Misread
    requires { by + misread.place ≤ usize.MAX }
    ensures { result ≡ record misread { place = by + misread.place } }
{
    Misread {
        place: by + misread.place,
        ..misread
    }
}

// Reads `count` coefficients, which stand from the second word on.
fn read_coefficients(words: &[u32], p: u16, count: u32) -> Result<usize, Misread>
    requires { (1 ≤ length words.now) × (count < payload_bound) }
    ensures { used_outcome result ≡ used_from 1 (coefficients_from p count) words.now }
{
    let end = count as usize + 1;
    for place in 1..end {
        let Some(&word) = words.get(place) else {
            return Err(Misread {
                fault: Fault::EndsEarly,
                place,
            });
        };
        if kind_of(word) != 3 {
            return Err(Misread {
                fault: Fault::WrongKind,
                place,
            });
        }
        let coefficient = payload_of(word);
        if u32::from(p) <= coefficient {
            return Err(Misread {
                fault: Fault::CoefficientTooLarge,
                place,
            });
        }
        // the place is tried first: which coefficients are 0 the processor cannot foresee
        if place + 1 == end && coefficient == 0 {
            return Err(Misread {
                fault: Fault::LastCoefficientZero,
                place,
            });
        }
    }
    Ok(end)
}

// Reads the polynomial that starts at the first word, of at most `limit` coefficients.
pub fn read_polynomial(words: &[u32], p: u16, limit: u16) -> Result<usize, Misread>
    ensures { used_outcome result ≡ used (polynomial_from p limit) words.now }
{
    let place = 0;
    let Some(&word) = words.first() else {
        return Err(Misread {
            fault: Fault::EndsEarly,
            place,
        });
    };
    if kind_of(word) != 2 {
        return Err(Misread {
            fault: Fault::WrongKind,
            place,
        });
    }
    let count = payload_of(word);
    if u32::from(limit) < count {
        return Err(Misread {
            fault: Fault::TooManyCoefficients,
            place,
        });
    }
    read_coefficients(words, p, count)
}

// Reads `count` polynomials in a row, the first of them at the first word.
pub fn read_polynomials(words: &[u32], p: u16, limit: u16, count: u32) -> Result<usize, Misread>
    ensures { used_outcome result ≡ used (polynomials_from p limit count) words.now }
{
    let mut at = 0;
    for _ in 0..count {
        at += read_polynomial(&words[at..], p, limit).map_err(|misread| later(misread, at))?;
    }
    Ok(at)
}
