// The lookup. What is asked for is one more list of two words: 0 for the system and 1 for the certificate, and the number of the
// polynomial.
use crate::output::{Output, refused, text, words};
use limits::Office;
use lookup::{Of, lookup, lookup_part, lookup_refusal};
use std::io::Write;

// Prints from where to where a polynomial stands, and its words.
fn show<'a>(output: &mut Output, system: &'a [u32], certificate: &'a [u32], of: Of, number: usize) {
    let Ok((from, to)) = lookup_part(system, certificate, of, number, Office::limits()) else {
        return;
    };
    let _ = write!(output, "{from} to {to}: ");
    words(
        output,
        lookup(system, certificate, of, number, Office::limits()),
    );
    text(output, b"\n");
}

// Looks up a polynomial.
fn look_up<'a>(
    output: &mut Output,
    system: &'a [u32],
    certificate: &'a [u32],
    of: Of,
    number: usize,
) {
    match lookup_refusal(system, certificate, of, number, Office::limits()) {
        Ok(()) => show(output, system, certificate, of, number),
        Err(refusal) => refused(output, refusal),
    }
}

// Looks up what is asked for.
pub fn answer<'a>(output: &mut Output, system: &'a [u32], certificate: &'a [u32], asked: [u32; 2]) {
    let of = Of::from(asked[0] as u64);
    look_up(output, system, certificate, of, asked[1] as usize);
}
