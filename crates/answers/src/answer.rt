// A refusal: a row of document 01's table, or a caller's own number. `specs/Answer.antt` gives the number for each reason, and what the
// answers of calls say.
ghost use Rattle.std.specs.Prelude.{◌≡◌, Some};
ghost use Rattle.answers.specs.Answer.{fault_number, by_of, numbered, reason_number, refusal_text};
ghost use Rattle.answers.specs.declared.answer.Reason.TheVariants.{Words};

use crate::other::OtherNumber;
use std::fmt;

// Of which of the two something is said.
#[derive(Clone, Copy, Debug, PartialEq, Eq)]
pub enum Of {
    System,
    Certificate,
}

// What can be wrong behind the head of a system or a certificate.
#[derive(Clone, Copy, Debug, PartialEq, Eq)]
pub enum Fault {
    EndsEarly,
    WrongKind,
    TooManyCoefficients,
    CoefficientTooLarge,
    LastCoefficientZero,
    BadEnd,
}

// Why something is turned back: the rows of document 01's table, for each of which docs/REFUSALS.md has a sentence, or a number of a
// caller's own, with which no call here refuses.
#[derive(Clone, Copy, Debug, PartialEq, Eq)]
pub enum Reason {
    BadSystemHead,
    NotPrime,
    BadShape,
    // A fault in the words of one of the two.
    Words(Of, Fault),
    BadFileLength,
    SpaceShort,
    NoSuchPolynomial,
    BadCertificateHead,
    NotMonic,
    NotASolution,
    ColumnNotDivisible,
    DenominatorsDiffer,
    NotAKernel,
    NoContradiction,
    NoSuchSide,
    BeyondPanel,
    Other(OtherNumber),
}

// A fault, and the place of the word.
#[derive(Clone, Copy, Debug, PartialEq, Eq)]
pub struct Misread {
    pub fault: Fault,
    pub place: usize,
}

// A refusal: its reason, and its place.
#[derive(Clone, Copy, Debug, PartialEq, Eq)]
pub struct Refusal {
    pub reason: Reason,
    pub place: usize,
}

impl Fault {
    // Returns the number of the fault in a system.
    fn number(self) -> u8
        ensures { result ≡ fault_number self }
    {
        match self {
            Fault::EndsEarly => 4,
            Fault::WrongKind => 5,
            Fault::TooManyCoefficients => 6,
            Fault::CoefficientTooLarge => 7,
            Fault::LastCoefficientZero => 8,
            Fault::BadEnd => 9,
        }
    }
}

impl Of {
    // Returns what is added to the number of a fault.
    fn by(self) -> u8
        ensures { result ≡ by_of self }
    {
        match self {
            Of::System => 0,
            Of::Certificate => 20,
        }
    }
}

impl From<u64> for Of {
    ghost from_gives = { λ number of. of ≡ numbered number };

    // Returns the one that a caller in another language means: 0 is the system.
    fn from(number: u64) -> Of {
        match number {
            0 => Of::System,
            _ => Of::Certificate,
        }
    }
}

impl Reason {
    // Returns the number in the table.
    pub fn number(self) -> u8
        ensures { result ≡ reason_number self }
    {
        match self {
            Reason::BadSystemHead => 1,
            Reason::NotPrime => 2,
            Reason::BadShape => 3,
            Reason::Words(of, fault) => fault.number() + of.by(),
            Reason::BadFileLength => 10,
            Reason::SpaceShort => 11,
            Reason::NoSuchPolynomial => 12,
            Reason::BadCertificateHead => 21,
            Reason::NotMonic => 31,
            Reason::NotASolution => 32,
            Reason::ColumnNotDivisible => 33,
            Reason::DenominatorsDiffer => 34,
            Reason::NotAKernel => 35,
            Reason::NoContradiction => 36,
            Reason::NoSuchSide => 40,
            Reason::BeyondPanel => 41,
            Reason::Other(other) => other.number,
        }
    }
}

impl From<u8> for Reason {
    ghost from_gives = { λ number reason. reason_number reason ≡ number };

    // Returns the row that has a number, or the number alone where none has it.
    fn from(number: u8) -> Reason {
        match number {
            1 => Reason::BadSystemHead,
            2 => Reason::NotPrime,
            3 => Reason::BadShape,
            4 => Reason::Words(Of::System, Fault::EndsEarly),
            5 => Reason::Words(Of::System, Fault::WrongKind),
            6 => Reason::Words(Of::System, Fault::TooManyCoefficients),
            7 => Reason::Words(Of::System, Fault::CoefficientTooLarge),
            8 => Reason::Words(Of::System, Fault::LastCoefficientZero),
            9 => Reason::Words(Of::System, Fault::BadEnd),
            10 => Reason::BadFileLength,
            11 => Reason::SpaceShort,
            12 => Reason::NoSuchPolynomial,
            21 => Reason::BadCertificateHead,
            24 => Reason::Words(Of::Certificate, Fault::EndsEarly),
            25 => Reason::Words(Of::Certificate, Fault::WrongKind),
            26 => Reason::Words(Of::Certificate, Fault::TooManyCoefficients),
            27 => Reason::Words(Of::Certificate, Fault::CoefficientTooLarge),
            28 => Reason::Words(Of::Certificate, Fault::LastCoefficientZero),
            29 => Reason::Words(Of::Certificate, Fault::BadEnd),
            31 => Reason::NotMonic,
            32 => Reason::NotASolution,
            33 => Reason::ColumnNotDivisible,
            34 => Reason::DenominatorsDiffer,
            35 => Reason::NotAKernel,
            36 => Reason::NoContradiction,
            40 => Reason::NoSuchSide,
            41 => Reason::BeyondPanel,
            0 | 13..=20 | 22..=23 | 30 | 37..=39 | 42..=255 => Reason::Other(OtherNumber {
                number,
            }),
        }
    }
}

impl Misread {
    // Makes the refusal of it, in one of the two.
    pub fn of(self, of: Of) -> Refusal
        ensures reason { result.reason ≡ Words of self.fault }
        ensures place { result.place ≡ self.place }
    {
        Refusal {
            reason: Reason::Words(of, self.fault),
            place: self.place,
        }
    }
}

impl fmt::Display for Refusal {
    ghost output = { λ refusal. Some (refusal_text refusal) };

    // Writes document 01's line.
    fn fmt<W: fmt::Write>(&self, f: &mut fmt::Formatter<W>) -> fmt::Result {
        let number = self.reason.number();
        let place = self.place;
        write!(f, "refused {number} at {place}")
    }
}
