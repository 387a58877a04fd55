// The limits of document 01, "Bounds", and of the panel: constants of two types, and a value to hand to functions.
#![tactic(auto)]

ghost use Rattle.std.specs.Prelude.{◌≡◌};
ghost use Rattle.words.specs.Limits.{office, panel, longest_system, longest_certificate, words_for};
ghost use Rattle.limits.specs.Value.{limits_of};

use answers::word::WORD_BYTES;

// Limits that are handed to a function.
#[derive(Clone, Copy)]
pub struct Limits {
    // The most rows, and the most columns.
    pub rows: u8,
    pub columns: u8,
    // The most right sides.
    pub sides: u8,
    // The most coefficients of a polynomial, in a system and in a certificate.
    pub coefficients: u16,
    pub certificate_coefficients: u16,
}

// Counts a head, `count` polynomials of `coefficients` coefficients, and an end.
fn words_for(count: u32, coefficients: u16) -> usize
    ensures { result ≡ words_for count coefficients }
{
    2 + (count as usize) * (1 + coefficients as usize)
}

impl Limits {
    // Counts the words of the longest system.
    pub fn system_words(self) -> usize
        ensures { result ≡ longest_system (limits_of self) }
    {
        let rows = self.rows as u32;
        let columns = self.columns as u32;
        let sides = self.sides as u32;
        words_for(rows * columns + sides * rows, self.coefficients)
    }

    // Counts the words of the longest certificate.
    pub fn certificate_words(self) -> usize
        ensures { result ≡ longest_certificate (limits_of self) }
    {
        let rows = self.rows as u32;
        let columns = self.columns as u32;
        words_for(1 + columns + 1 + rows, self.certificate_coefficients)
    }
}

// The office's limits.
#[derive(Clone, Copy)]
pub struct Office;

impl Office {
    pub const ROWS: u8 = 8;

    pub const COLUMNS: u8 = 8;

    pub const SIDES: u8 = 8;

    pub const COEFFICIENTS: u16 = 16;

    pub const CERTIFICATE_COEFFICIENTS: u16 = 121;

    // The most polynomials of a system, and of a certificate.
    pub const SYSTEM_POLYNOMIALS: usize = 128;

    pub const CERTIFICATE_POLYNOMIALS: usize = 18;

    pub const SYSTEM_WORDS: usize = 2178;

    pub const CERTIFICATE_WORDS: usize = 2198;

    // The bytes of the longest system's file, and of the longest certificate's.
    pub const SYSTEM_BYTES: usize = WORD_BYTES * Office::SYSTEM_WORDS;

    pub const CERTIFICATE_BYTES: usize = WORD_BYTES * Office::CERTIFICATE_WORDS;

    // Returns these limits as a value.
    pub fn limits() -> Limits
        ensures { limits_of result ≡ office }
    {
        Limits {
            rows: Office::ROWS,
            columns: Office::COLUMNS,
            sides: Office::SIDES,
            coefficients: Office::COEFFICIENTS,
            certificate_coefficients: Office::CERTIFICATE_COEFFICIENTS,
        }
    }

    // Returns the constant, which its contract ties to the definition.
    pub fn system_words() -> usize
        ensures { result ≡ longest_system office }
    {
        Office::SYSTEM_WORDS
    }

    // Returns the constant, which its contract ties to the definition.
    pub fn certificate_words() -> usize
        ensures { result ≡ longest_certificate office }
    {
        Office::CERTIFICATE_WORDS
    }
}

// The panel's limits. Beside the office's they stay constants of a type of their own: a trait for both is no plainer, since it would need
// each of the five twice, once for code and once for clauses.
#[derive(Clone, Copy)]
pub struct Panel;

impl Panel {
    pub const ROWS: u8 = 4;

    pub const COLUMNS: u8 = 4;

    pub const SIDES: u8 = 1;

    pub const COEFFICIENTS: u16 = 8;

    pub const CERTIFICATE_COEFFICIENTS: u16 = 29;

    pub const SYSTEM_WORDS: usize = 182;

    pub const CERTIFICATE_WORDS: usize = 302;

    // Returns these limits as a value.
    pub fn limits() -> Limits
        ensures { limits_of result ≡ panel }
    {
        Limits {
            rows: Panel::ROWS,
            columns: Panel::COLUMNS,
            sides: Panel::SIDES,
            coefficients: Panel::COEFFICIENTS,
            certificate_coefficients: Panel::CERTIFICATE_COEFFICIENTS,
        }
    }

    // Returns the constant, which its contract ties to the definition.
    pub fn system_words() -> usize
        ensures { result ≡ longest_system panel }
    {
        Panel::SYSTEM_WORDS
    }

    // Returns the constant, which its contract ties to the definition.
    pub fn certificate_words() -> usize
        ensures { result ≡ longest_certificate panel }
    {
        Panel::CERTIFICATE_WORDS
    }
}
