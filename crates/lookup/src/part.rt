// One polynomial among the words of a system or a certificate that was read. The start words lead to it: each says how many
// coefficients stand behind it.
ghost use Rattle.std.specs.Prelude.{◌≡◌};
ghost use Rattle.words.specs.Starts.{start_place};
ghost use Rattle.lookup.specs.Answer.{part_outcome};
ghost use Rattle.lookup.specs.Standing.{StartsInside, part_in};

use answers::{Reason, Refusal};
use read_frame::word::{kind_of, payload_of};

// Finds the place of the start word of polynomial `number`; behind the last polynomial that of the end word.
fn start_of(words: &[u32], number: usize) -> usize
    requires { StartsInside words.now }
    ensures { result ≡ start_place words.now number }
{
    let mut at: usize = 1;
    for _ in 0..number {
        let word = words[at];
        if kind_of(word) != 2 {
            return at;
        }
        at += 1 + payload_of(word) as usize;
    }
    at
}

// Finds where polynomial `number` stands: from the first place up to before the second.
pub fn part_of(words: &[u32], number: usize) -> Result<(usize, usize), Refusal>
    requires { StartsInside words.now }
    ensures { part_outcome result ≡ part_in words.now number }
{
    let from = start_of(words, number);
    let word = words[from];
    if kind_of(word) != 2 {
        return Err(Refusal {
            reason: Reason::NoSuchPolynomial,
            place: 0,
        });
    }
    Ok((from, from + 1 + payload_of(word) as usize))
}
