// The report, the solver and the check on a system's file: the lines of the report joined by `; `, and behind them, for a system
// that was read, the words of the solver's certificate for the first right side, or `not accepted` where the check does not accept
// it. And the solver and the check alone, told a right side and how many bytes are lent.
use crate::output::{Output, refused, text, words};
use files::unpacking::unpack;
use limits::Office;
use report::{SPACE, write_report};
use solver::file::solve_file;
use verifier::file::check_files;

// Prints the words of a certificate's file.
fn show_words(output: &mut Output, certificate: &[u8]) {
    let mut ws = [0u32; Office::CERTIFICATE_WORDS];
    let n = unpack(&mut ws, certificate);
    words(output, &ws[..n]);
}

// Prints a certificate for a right side of a file, if the check accepts it.
fn show_accepted(output: &mut Output, file: &[u8], certificate: &[u8], side: usize) {
    match check_files(file, certificate, side) {
        Ok(()) => show_words(output, certificate),
        Err(_) => text(output, b"not accepted"),
    }
}

// Prints the certificate that the solver gives for the first right side of a file, if this holds a system.
fn show_solved(output: &mut Output, file: &[u8]) {
    let mut certificate = [0u8; Office::CERTIFICATE_BYTES];
    if let Ok(n) = solve_file(&mut certificate, file, 0) {
        text(output, b"; ");
        show_accepted(output, file, &certificate[..n], 0);
    }
}

// Prints the first n of the lent bytes, a certificate for a right side of a file, as a line.
fn show_side(output: &mut Output, lent: &[u8], n: usize, file: &[u8], side: usize) {
    if let Some(certificate) = lent.get(..n) {
        show_accepted(output, file, certificate, side);
        text(output, b"\n");
    }
}

// Solves for a right side, and prints the certificate or the refusal.
fn solve_side(output: &mut Output, lent: &mut [u8], file: &[u8], side: usize) {
    match solve_file(lent, file, side) {
        Ok(n) => show_side(output, lent, n, file, side),
        Err(refusal) => refused(output, refusal),
    }
}

// Lends so many bytes, and solves for a right side. Of a case that lends too many there is no line.
pub fn answer_side(output: &mut Output, file: &[u8], side: usize, lent: usize) {
    if Office::CERTIFICATE_BYTES < lent {
        return;
    }
    let mut certificate = [0u8; Office::CERTIFICATE_BYTES];
    solve_side(output, &mut certificate[..lent], file, side);
}

// Prints a byte of a report: `; ` for a line end.
fn put(output: &mut Output, byte: u8) {
    if byte == b'\n' {
        text(output, b"; ");
    } else {
        text(output, &[byte]);
    }
}

// Prints a report as one line without its end.
fn show(output: &mut Output, report: &[u8]) {
    if let Some((_, but_last)) = report.split_last() {
        for byte in but_last {
            put(output, *byte);
        }
    }
}

// Reports, solves and checks.
pub fn answer(output: &mut Output, file: &[u8]) {
    let mut report = [0u8; SPACE];
    let n = write_report(&mut report, file);
    show(output, &report[..n]);
    show_solved(output, file);
    text(output, b"\n");
}
