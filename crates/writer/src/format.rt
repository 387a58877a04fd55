// The formats of systems and of certificates.
ghost use Rattle.std.specs.Prelude.{◌≡◌, ℕ, ◌≤◌};
ghost use Rattle.words.specs.Limits.{office};
ghost use Rattle.words.specs.System.{ShapeWithin};
ghost use Rattle.answers.specs.Answer.{form_of};
ghost use Rattle.writer.specs.Values.{shape_with};
ghost use Rattle.writer.specs.Formats.{KindWithin, certificate_frame, format_of};

use answers::head::{COLUMN_UNIT, ROW_UNIT, SIDE_UNIT};
use answers::word::{CERTIFICATE_HEAD, SYSTEM_HEAD};
use answers::{Form, Of};
use limits::Office;
use write_frame::format::Format;

// What is written: a matrix with so many right sides, or a certificate of that form.
#[derive(Clone, Copy)]
pub enum Kind {
    System(u32),
    Certificate(Form),
}

// The head of a certificate of each form.
const SOLUTION_HEAD: u32 = CERTIFICATE_HEAD + 1;

const ABSENCE_HEAD: u32 = CERTIFICATE_HEAD + 2;

// The words of the array that hands over the polynomials of a system.
pub const SYSTEM_VALUES: usize = Office::COEFFICIENTS as usize * Office::SYSTEM_POLYNOMIALS;

// The words of the array that hands over the polynomials of a certificate: polynomial k has its coefficients from the place
// STRIDE * k on.
pub const STRIDE: usize = 128;

pub const CERTIFICATE_VALUES: usize = STRIDE * Office::CERTIFICATE_POLYNOMIALS;

// Returns the format of certificates for systems of `rows` rows and `columns` columns; p does not matter.
pub fn certificate_format(form: Form, rows: u32, columns: u32) -> Format
    requires { (rows ≤ office.rows) × (columns ≤ office.columns) }
    ensures { (p : ℕ) → result ≡ certificate_frame office (shape_with p rows columns) (form_of form) }
{
    match form {
        Form::Solution => Format {
            head: SOLUTION_HEAD,
            count: (1 + columns + 1 + rows) as usize,
            limit: Office::CERTIFICATE_COEFFICIENTS as usize,
            stride: STRIDE,
            of: Of::Certificate,
            longest: Office::CERTIFICATE_WORDS,
        },
        Form::Absence => Format {
            head: ABSENCE_HEAD,
            count: rows as usize,
            limit: Office::CERTIFICATE_COEFFICIENTS as usize,
            stride: STRIDE,
            of: Of::Certificate,
            longest: Office::CERTIFICATE_WORDS,
        },
    }
}

// Returns the format of what is written for a shape and a number of right sides within the limits.
pub fn format_for(kind: Kind, rows: u32, columns: u32, modulus: u32) -> Format
    requires { ShapeWithin office (shape_with modulus rows columns) × KindWithin office kind }
    ensures { result ≡ format_of office (shape_with modulus rows columns) kind }
{
    match kind {
        Kind::System(sides) => Format {
            head: SYSTEM_HEAD
                + (modulus + rows * ROW_UNIT + columns * COLUMN_UNIT + (sides - 1) * SIDE_UNIT),
            count: (rows * columns + sides * rows) as usize,
            limit: Office::COEFFICIENTS as usize,
            stride: Office::COEFFICIENTS as usize,
            of: Of::System,
            longest: Office::SYSTEM_WORDS,
        },
        Kind::Certificate(form) => certificate_format(form, rows, columns),
    }
}
