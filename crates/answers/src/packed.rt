// Answers as one number: 64 times the place, plus the number of the refusal.
ghost use Rattle.std.specs.Prelude.{◌+◌, ◌*◌, ◌≤◌, ◌≡◌};
ghost use Rattle.answers.specs.Answer.{reason_number, counted_outcome, verdict_outcome};
ghost use Rattle.answers.specs.Packed.{place_unit, packed, packed_verdict, packed_most, AnswerMost, VerdictMost};

use crate::answer::Refusal;

// One place further, or one more counted, is so much more: numbers of the table are below it.
pub const PLACE_UNIT: u64 = 64;

// Packs place and number of a refusal.
fn pack(refusal: Refusal) -> u64
    requires { refusal.place ≤ packed_most }
    ensures { result ≡ place_unit * refusal.place + reason_number refusal.reason }
{
    PLACE_UNIT * refusal.place as u64 + refusal.reason.number() as u64
}

// Packs a count, with number 0, or a refusal.
pub fn pack_counted(counted: Result<usize, Refusal>) -> u64
    requires { AnswerMost packed_most packed_most (counted_outcome counted) }
    ensures { result ≡ packed (counted_outcome counted) }
{
    match counted {
        Ok(count) => PLACE_UNIT * count as u64,
        Err(refusal) => pack(refusal),
    }
}

// Packs acceptance as 0, or a refusal.
pub fn pack_verdict(verdict: Result<(), Refusal>) -> u64
    requires { VerdictMost packed_most (verdict_outcome verdict) }
    ensures { result ≡ packed_verdict (verdict_outcome verdict) }
{
    match verdict {
        Ok(()) => 0,
        Err(refusal) => pack(refusal),
    }
}
