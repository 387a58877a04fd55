// Reading a system that has a right side: all of it, or the line of A and that right side.
ghost use Rattle.std.specs.Prelude.{◌≡◌};
ghost use Rattle.words.specs.Outcome.{mapped};
ghost use Rattle.words.specs.System.{shape};
ghost use Rattle.words.specs.Systems.{systems_head, read_line};
ghost use Rattle.words.specs.Kept.{read_sided};
ghost use Rattle.limits.specs.Value.{limits_of};
ghost use Rattle.answers.specs.Answer.{system_outcome, line_outcome};

use crate::system::read_system;
use answers::{Head, Reason, Refusal, Shape};
use limits::Limits;

// Reads the whole system, then tries whether it has right side `side`, counted from 0.
pub fn read_sided(words: &[u32], side: usize, limits: Limits) -> Result<Head, Refusal>
    ensures { system_outcome result ≡ mapped systems_head (read_sided (limits_of limits) side words.now) }
{
    let head = read_system(words, limits)?;
    if usize::from(head.sides) <= side {
        return Err(Refusal {
            reason: Reason::NoSuchSide,
            place: 0,
        });
    }
    Ok(head)
}

// Reads the system of the line with this right side.
pub fn read_line(words: &[u32], side: usize, limits: Limits) -> Result<Shape, Refusal>
    ensures { line_outcome result ≡ mapped shape (read_line (limits_of limits) side words.now) }
{
    read_sided(words, side, limits).map(|head| head.shape)
}
