// The writers. A case is its kind, p, n, m, the number of right sides, that of lent words, and the polynomials. Of one that lends
// too many there is no line.
use crate::codes::Kind;
use crate::input::{WORDS, word};
use crate::output::{Output, refused, text, words};
use crate::polynomials::unpack;
use answers::{Form, Refusal};
use limits::Office;
use std::io::Write;
use writer::certificate::write_certificate;
use writer::format::{CERTIFICATE_VALUES, STRIDE, SYSTEM_VALUES};
use writer::system::write_system;

// No case lends more words.
const MOST: usize = 4096;

// Lends as many words as the case says, and has them written.
pub fn answer(output: &mut Output, case: &[u32; WORDS]) {
    let lent = word(case, 5) as usize;
    if MOST < lent {
        return;
    }
    let mut words = [0u32; MOST];
    answer_lent(output, &mut words[..lent], case);
}

// Writes to the lent words what the case is of, and prints it.
fn answer_lent(output: &mut Output, words: &mut [u32], case: &[u32; WORDS]) {
    match write(words, case) {
        Ok(count) => show(output, words, count),
        Err(refusal) => refused(output, refusal),
    }
}

// Writes what the case is of.
fn write(words: &mut [u32], case: &[u32; WORDS]) -> Result<usize, Refusal> {
    match Kind::from(case[0]) {
        Kind::System => system(words, case),
        Kind::Certificate(form) => certificate(words, case, form),
    }
}

// Writes a system.
fn system(words: &mut [u32], case: &[u32; WORDS]) -> Result<usize, Refusal> {
    let mut sizes = [0usize; Office::SYSTEM_POLYNOMIALS];
    let mut coefficients = [0u64; SYSTEM_VALUES];
    let limit = Office::COEFFICIENTS as usize;
    unpack(&mut sizes, &mut coefficients, case, limit, limit);
    write_system(
        words,
        &sizes,
        &coefficients,
        case[2],
        case[3],
        case[4],
        case[1],
    )
}

// Writes a certificate.
fn certificate(words: &mut [u32], case: &[u32; WORDS], form: Form) -> Result<usize, Refusal> {
    let mut sizes = [0usize; Office::CERTIFICATE_POLYNOMIALS];
    let mut coefficients = [0u64; CERTIFICATE_VALUES];
    let limit = Office::CERTIFICATE_COEFFICIENTS as usize;
    unpack(&mut sizes, &mut coefficients, case, STRIDE, limit);
    write_certificate(
        words,
        &sizes,
        &coefficients,
        form,
        case[2],
        case[3],
        case[1],
    )
}

// Prints what was written: so many of the words lent.
fn show(output: &mut Output, lent: &[u32], count: usize) {
    if count <= lent.len() {
        let _ = write!(output, "wrote {count} ");
        words(output, &lent[..count]);
        text(output, b"\n");
    }
}
