// A row of the table that is tried at one place after another.
ghost use Rattle.std.specs.Prelude.{◌≡◌, ℕ, ◌<◌, Bool};
ghost use Rattle.words.specs.Outcome.Outcome.{accepted};
ghost use Rattle.truth.specs.Verdict.{refuse_first};
ghost use Rattle.answers.specs.Answer.{reason_number, verdict_outcome};

use answers::{Reason, Refusal};

// Refuses at the first place below `count` that is wrong.
pub fn refuse_first<F: Fn(usize) -> bool>(
    count: usize,
    reason: Reason,
    wrong: F,
) -> Result<(), Refusal>
    requires { (j : ℕ) → j < count → F.pre wrong j }
    ensures { (g : ℕ → Bool) → ((j : ℕ) (told : Bool) → j < count → F.post wrong j told → told ≡ g j) →
        verdict_outcome result ≡ refuse_first count g (reason_number reason) (accepted tt) }
{
    for place in 0..count {
        if wrong(place) {
            return Err(Refusal { reason, place });
        }
    }
    Ok(())
}
