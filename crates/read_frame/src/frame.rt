// What systems and certificates have behind their heads: polynomials and an end.
ghost use Rattle.std.specs.Prelude.{◌≡◌, ◌≤◌, length};
ghost use Rattle.words.specs.Reading.{used_from};
ghost use Rattle.words.specs.Frame.{end_from, body_from};
ghost use Rattle.answers.specs.Answer.{used_outcome};
ghost use Rattle.read_frame.specs.Due.{due_of};

use crate::polynomial::{later, read_polynomials};
use crate::word::{kind_of, payload_of};
use answers::{Fault, Misread};

// Reads the end word at `place`, and nothing behind it.
fn read_end(words: &[u32], place: usize) -> Result<usize, Misread>
    requires { place ≤ length words.now }
    ensures { used_outcome result ≡ used_from place (end_from (length words.now)) words.now }
{
    let Some(&word) = words.get(place) else {
        return Err(Misread {
            fault: Fault::EndsEarly,
            place,
        });
    };
    if kind_of(word) != 4 {
        return Err(Misread {
            fault: Fault::WrongKind,
            place,
        });
    }
    if payload_of(word) as usize != place + 1 {
        return Err(Misread {
            fault: Fault::BadEnd,
            place,
        });
    }
    if place + 1 < words.len() {
        return Err(Misread {
            fault: Fault::BadEnd,
            place: place + 1,
        });
    }
    Ok(place + 1)
}

// Reads `count` polynomials from the second word on, then the end.
pub fn read_body(words: &[u32], p: u16, limit: u16, count: u32) -> Result<usize, Misread>
    requires { 1 ≤ length words.now }
    ensures { used_outcome result ≡
        used_from 1 (body_from (due_of p limit count) (length words.now)) words.now }
{
    let used = read_polynomials(&words[1..], p, limit, count).map_err(|misread| later(misread, 1))?;
    read_end(words, used + 1)
}
