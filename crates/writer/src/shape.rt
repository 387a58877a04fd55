// Trying p, n and m.
ghost use Rattle.std.specs.Prelude.{◌≡◌};
ghost use Rattle.words.specs.Limits.{office};
ghost use Rattle.answers.specs.Answer.{verdict_outcome};
ghost use Rattle.write_frame.specs.Trial.{passed};
ghost use Rattle.writer.specs.Writing.{refuse_shape};
ghost use Rattle.writer.specs.Values.{shape_with};

use answers::number::one_to;
use answers::{Reason, Refusal};
use limits::Office;
use residue::prime::is_prime;

// "p: any prime from 2 to 65,521"
const LARGEST_MODULUS: u32 = 65521;

// Tries p, n and m: 2, then 3, at place 0.
pub fn try_shape(rows: u32, columns: u32, modulus: u32) -> Result<(), Refusal>
    ensures { verdict_outcome result ≡ refuse_shape office (shape_with modulus rows columns) passed }
{
    if LARGEST_MODULUS < modulus || !is_prime(modulus as u16) {
        return Err(Refusal {
            reason: Reason::NotPrime,
            place: 0,
        });
    }
    if !one_to(Office::ROWS as u32, rows) || !one_to(Office::COLUMNS as u32, columns) {
        return Err(Refusal {
            reason: Reason::BadShape,
            place: 0,
        });
    }
    Ok(())
}
