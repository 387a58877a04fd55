// What the numbers in a case stand for. tests/reference/README.md has their tables.
ghost use Rattle.std.specs.Prelude.{◌≡◌};
ghost use Rattle.stored_cases.specs.Codes.{kind_numbered, NamesCall, NamesOperation};

use answers::Form;

// A call, by the list that its case begins with.
#[derive(Clone, Copy, Debug, PartialEq, Eq)]
pub enum Call {
    Words(WordsCall),
    Bytes(BytesCall),
}

// A call on words.
#[derive(Clone, Copy, Debug, PartialEq, Eq)]
pub enum WordsCall {
    Arithmetic,
    Writer,
    ReadForOffice,
    ReadForPanel,
    Both(BothCall),
}

// A call on the words of a system and those of a certificate.
#[derive(Clone, Copy, Debug, PartialEq, Eq)]
pub enum BothCall {
    Read,
    Check,
    Lookup,
}

// A call on bytes.
#[derive(Clone, Copy, Debug, PartialEq, Eq)]
pub enum BytesCall {
    Heading,
    Describe,
    List,
    Report,
    SolveSide,
    CheckPanel,
}

// A number that no call has.
#[derive(Clone, Copy, Debug, PartialEq, Eq)]
pub struct UnknownCall(pub u32);

impl TryFrom<u32> for Call {
    type Error = UnknownCall;

    ghost try_from_gives = { NamesCall };

    // Returns the call that has a number.
    fn try_from(number: u32) -> Result<Self, UnknownCall> {
        match number {
            1 => Ok(Call::Words(WordsCall::Arithmetic)),
            2 => Ok(Call::Words(WordsCall::Writer)),
            3 => Ok(Call::Words(WordsCall::ReadForOffice)),
            4 => Ok(Call::Words(WordsCall::ReadForPanel)),
            5 => Ok(Call::Bytes(BytesCall::Heading)),
            6 => Ok(Call::Bytes(BytesCall::Describe)),
            7 => Ok(Call::Bytes(BytesCall::List)),
            8 => Ok(Call::Bytes(BytesCall::Report)),
            9 => Ok(Call::Words(WordsCall::Both(BothCall::Read))),
            10 => Ok(Call::Words(WordsCall::Both(BothCall::Check))),
            11 => Ok(Call::Words(WordsCall::Both(BothCall::Lookup))),
            12 => Ok(Call::Bytes(BytesCall::SolveSide)),
            13 => Ok(Call::Bytes(BytesCall::CheckPanel)),
            _ => Err(UnknownCall(number)),
        }
    }
}

// An operation of arithmetic.
#[derive(Clone, Copy, Debug, PartialEq, Eq)]
pub enum Operation {
    Prime,
    Residues,
    Multiple,
    Pair(PairOperation),
}

// An operation on two polynomials f and g, or on f alone.
#[derive(Clone, Copy, Debug, PartialEq, Eq)]
pub enum PairOperation {
    Sum,
    Difference,
    Product,
    Remainder,
    Quotient,
    Monic,
    Gcd,
    Equal,
}

// A code that no operation has.
#[derive(Clone, Copy, Debug, PartialEq, Eq)]
pub struct UnknownOperation(pub u32);

impl TryFrom<u32> for Operation {
    type Error = UnknownOperation;

    ghost try_from_gives = { NamesOperation };

    // Returns the operation that has a code.
    fn try_from(code: u32) -> Result<Self, UnknownOperation> {
        match code {
            1 => Ok(Operation::Prime),
            2 => Ok(Operation::Residues),
            3 => Ok(Operation::Pair(PairOperation::Sum)),
            4 => Ok(Operation::Pair(PairOperation::Difference)),
            5 => Ok(Operation::Multiple),
            6 => Ok(Operation::Pair(PairOperation::Product)),
            7 => Ok(Operation::Pair(PairOperation::Remainder)),
            8 => Ok(Operation::Pair(PairOperation::Quotient)),
            9 => Ok(Operation::Pair(PairOperation::Monic)),
            10 => Ok(Operation::Pair(PairOperation::Gcd)),
            11 => Ok(Operation::Pair(PairOperation::Equal)),
            _ => Err(UnknownOperation(code)),
        }
    }
}

// What a writer is to write.
#[derive(Clone, Copy, Debug, PartialEq, Eq)]
pub enum Kind {
    System,
    Certificate(Form),
}

impl From<u32> for Kind {
    ghost from_gives = { λ number kind. kind ≡ kind_numbered number };

    // Returns what a number means: 0 a system, 1 a solution, any other an absence.
    fn from(number: u32) -> Kind {
        match number {
            0 => Kind::System,
            1 => Kind::Certificate(Form::Solution),
            _ => Kind::Certificate(Form::Absence),
        }
    }
}
