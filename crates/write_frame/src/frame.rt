// Writing a head, polynomials and an end over the first of the lent words. The values are tried before, or known to keep the
// limits.
ghost use Rattle.std.specs.Prelude.{◌≡◌, map, ◌+◌, ◌*◌, ◌≤◌, ◌<◌, length};
ghost use Rattle.words.specs.Limits.{words_for};
ghost use Rattle.words.specs.Word.{word, AllBelow, payload_bound};
ghost use Rattle.words.specs.Polynomial.{polynomial_words, polynomials_words};
ghost use Rattle.words.specs.Frame.{framed_words};
ghost use Rattle.write_frame.specs.Overwriting.{overwritten};
ghost use Rattle.write_frame.specs.Framing.{Writable, Wrote, entries_in};

use crate::format::Polynomials;
use answers::word::{COEFFICIENT, END, START};

// Writes the words of the coefficients of f.
fn write_coefficients(words: &mut [u32], f: &[u64])
    requires { (length f.now ≤ length words.old) × AllBelow payload_bound f.now }
    ensures { words.new ≡ overwritten (map (word 3) f.now) words.old }
{
    for (i, a) in f.iter().enumerate() {
        words[i] = COEFFICIENT + *a as u32;
    }
}

// Writes the start word of f, then its coefficients.
fn write_polynomial(words: &mut [u32], f: &[u64])
    requires { (1 + length f.now ≤ length words.old) × (length f.now < payload_bound) × AllBelow payload_bound f.now }
    ensures { words.new ≡ overwritten (polynomial_words f.now) words.old }
{
    words[0] = START + f.len() as u32;
    write_coefficients(&mut words[1..], f);
}

// Writes all polynomials, in written order. Returns the number of their words.
fn write_polynomials(words: &mut [u32], polynomials: Polynomials) -> usize
    requires { Writable polynomials.format polynomials.sizes.now polynomials.coefficients.now
        × (polynomials.format.count * (1 + polynomials.format.limit) ≤ length words.old) }
    ensures { Wrote
        (polynomials_words (entries_in polynomials.entry.format polynomials.entry.sizes.now polynomials.entry.coefficients.now))
        words.old words.new result
        × (result ≤ polynomials.entry.format.count * (1 + polynomials.entry.format.limit)) }
{
    let Polynomials {
        sizes,
        coefficients,
        format,
    } = polynomials;
    let mut at = 0;
    for k in 0..format.count {
        let size = sizes[k];
        let from = format.stride * k;
        write_polynomial(&mut words[at..], &coefficients[from..from + size]);
        at += 1 + size;
    }
    at
}

// Writes the head, the polynomials and the end. Returns the number of all words.
pub fn write_framed(words: &mut [u32], polynomials: Polynomials) -> usize
    requires { Writable polynomials.format polynomials.sizes.now polynomials.coefficients.now
        × (words_for polynomials.format.count polynomials.format.limit ≤ length words.old) }
    ensures { Wrote
        (framed_words polynomials.entry.format.head
        (entries_in polynomials.entry.format polynomials.entry.sizes.now polynomials.entry.coefficients.now))
        words.old words.new result }
{
    words[0] = polynomials.format.head;
    let end = 1 + write_polynomials(&mut words[1..], polynomials);
    words[end] = END + (end + 1) as u32;
    end + 1
}
