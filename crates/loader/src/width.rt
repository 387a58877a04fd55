// The widths of the slots that hold a polynomial of a system, and of a certificate: the number of its coefficients, then these. How
// many polynomials one line of a system has at most: those of A, and those of one right side.
use limits::Office;

pub const SYSTEM_WIDTH: usize = 1 + Office::COEFFICIENTS as usize;

pub const CERTIFICATE_WIDTH: usize = 1 + Office::CERTIFICATE_COEFFICIENTS as usize;

pub const LINE_POLYNOMIALS: usize = Office::ROWS as usize * (Office::COLUMNS as usize + 1);
