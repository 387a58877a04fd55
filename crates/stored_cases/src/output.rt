// What is printed: parts of lines, and whole lines. Where printing fails, the last flush says so.
use answers::Refusal;
use std::io::{BufWriter, Stdout, Write};

// Standard output, behind a buffer.
pub type Output = BufWriter<Stdout>;

// Prints a part of a line.
pub fn text(output: &mut Output, bytes: &[u8]) {
    let _ = output.write_all(bytes);
}

// Prints a line.
pub fn line(output: &mut Output, bytes: &[u8]) {
    text(output, bytes);
    text(output, b"\n");
}

// Prints a refusal, as a line.
pub fn refused(output: &mut Output, refusal: Refusal) {
    let _ = writeln!(output, "{refusal}");
}

// Prints a verdict, as a line.
pub fn verdict(output: &mut Output, verdict: Result<(), Refusal>) {
    match verdict {
        Ok(()) => text(output, b"accepted\n"),
        Err(refusal) => refused(output, refusal),
    }
}

// Prints a space before all but the first.
pub fn separate(output: &mut Output, i: usize) {
    if 0 < i {
        text(output, b" ");
    }
}

// The hexadecimal digits.
const DIGITS: [u8; 16] = *b"0123456789ABCDEF";

// Returns the eight hexadecimal digits of a word. By `write!` a line of 2,178 words took 2.1 times the instructions.
fn hexadecimal(word: u32) -> [u8; 8] {
    let mut digits = [0u8; 8];
    let mut rest = word;
    for digit in digits.iter_mut().rev() {
        *digit = DIGITS[(rest % 16) as usize];
        rest /= 16;
    }
    digits
}

// Prints words, each in eight hexadecimal digits, one space between.
pub fn words(output: &mut Output, ws: &[u32]) {
    for (i, w) in ws.iter().enumerate() {
        separate(output, i);
        text(output, &hexadecimal(*w));
    }
}
