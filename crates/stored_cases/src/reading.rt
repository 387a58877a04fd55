// The readers of systems and certificates.
use crate::output::{Output, refused, text};
use answers::{Form, Head, Refusal};
use limits::Office;
use reader::certificate::read_certificate;
use reader::system::read_system;
use std::io::Write;

// Prints p, n, m and the number of right sides in words, or the refusal.
pub fn describe(output: &mut Output, read: Result<Head, Refusal>) {
    match read {
        Ok(Head { shape, sides }) => {
            let _ = writeln!(
                output,
                "system modulo {}, rows {}, columns {}, right sides {sides}",
                shape.modulus, shape.rows, shape.columns
            );
        }
        Err(refusal) => refused(output, refusal),
    }
}

// Prints p, n, m and the number of right sides alone, or the refusal.
pub fn list(output: &mut Output, read: Result<Head, Refusal>) {
    match read {
        Ok(Head { shape, sides }) => {
            let _ = writeln!(
                output,
                "read {} {} {} {sides}",
                shape.modulus, shape.rows, shape.columns
            );
        }
        Err(refusal) => refused(output, refusal),
    }
}

// Reads a system, then a certificate for it.
fn read_both(system: &[u32], certificate: &[u32]) -> Result<Form, Refusal> {
    let head = read_system(system, Office::limits())?;
    read_certificate(certificate, head.shape, Office::limits())
}

// Prints the form of a certificate for a system, or the refusal.
pub fn answer_certificate(output: &mut Output, system: &[u32], certificate: &[u32]) {
    match read_both(system, certificate) {
        Ok(Form::Solution) => text(output, b"solution\n"),
        Ok(Form::Absence) => text(output, b"absence\n"),
        Err(refusal) => refused(output, refusal),
    }
}
