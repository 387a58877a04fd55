// Reading a system: the head, A row by row, the right sides one after another, the end.
ghost use Rattle.std.specs.Prelude.{◌≡◌};
ghost use Rattle.words.specs.Outcome.{mapped};
ghost use Rattle.words.specs.Reading.{outcome_of};
ghost use Rattle.words.specs.Systems.{systems_head, systems_head_from, read_systems};
ghost use Rattle.limits.specs.Value.{limits_of};
ghost use Rattle.answers.specs.Answer.{system_outcome};

use answers::head::{BOUND_4, COLUMN_UNIT, ROW_UNIT, SIDE_UNIT};
use answers::number::one_to;
use answers::{Fault, Head, Of, Reason, Refusal, Shape};
use limits::Limits;
use read_frame::frame::read_body;
use read_frame::word::kind_of;
use residue::prime::is_prime;

// Reads the head, which is the first word.
fn read_head(words: &[u32], limits: Limits) -> Result<Head, Refusal>
    ensures { system_outcome result ≡ outcome_of (systems_head_from (limits_of limits)) words.now }
{
    let place = 0;
    let Some(&word) = words.first() else {
        return Err(Refusal {
            reason: Reason::Words(Of::System, Fault::EndsEarly),
            place,
        });
    };
    let sides = word / SIDE_UNIT % BOUND_4 + 1;
    if kind_of(word) != 1 || u32::from(limits.sides) < sides {
        return Err(Refusal {
            reason: Reason::BadSystemHead,
            place,
        });
    }
    let modulus = (word % ROW_UNIT) as u16;
    if !is_prime(modulus) {
        return Err(Refusal {
            reason: Reason::NotPrime,
            place,
        });
    }
    let rows = word / ROW_UNIT % BOUND_4;
    let columns = word / COLUMN_UNIT % BOUND_4;
    if !one_to(u32::from(limits.rows), rows) || !one_to(u32::from(limits.columns), columns) {
        return Err(Refusal {
            reason: Reason::BadShape,
            place,
        });
    }
    Ok(Head {
        shape: Shape {
            modulus,
            rows: rows as u8,
            columns: columns as u8,
        },
        sides: sides as u8,
    })
}

// Reads the whole system.
pub fn read_system(words: &[u32], limits: Limits) -> Result<Head, Refusal>
    ensures { system_outcome result ≡ mapped systems_head (read_systems (limits_of limits) words.now) }
{
    let head = read_head(words, limits)?;
    let shape = head.shape;
    let rows = u32::from(shape.rows);
    let count = rows * u32::from(shape.columns) + u32::from(head.sides) * rows;
    let body = read_body(words, shape.modulus, limits.coefficients, count);
    body.map_err(|misread| misread.of(Of::System))?;
    Ok(head)
}
