// What the heads of a system and of a certificate say, as one number.
ghost use Rattle.std.specs.Prelude.{◌*◌, ◌≤◌, ◌≡◌};
ghost use Rattle.answers.specs.Answer.{head_of, form_of};
ghost use Rattle.answers.specs.Heads.{head_number, kind_number};
ghost use Rattle.answers.specs.Packed.{place_unit};

use crate::packed::PLACE_UNIT;
use crate::shape::{Form, Head};

// In the head of a system: one row more, one column more and one right side more are so much more.
pub const ROW_UNIT: u32 = 65536;

pub const COLUMN_UNIT: u32 = 1048576;

pub const SIDE_UNIT: u32 = 16777216;

// Rows, columns and right sides have four bits each: they are below this, the right sides less one.
pub const BOUND_4: u32 = 16;

// Packs modulus, rows, columns and right sides as a count is packed.
pub fn pack_head(head: Head) -> u64
    requires { 1 ≤ head.sides }
    ensures { result ≡ place_unit * head_number (head_of head) }
{
    let shape = head.shape;
    PLACE_UNIT
        * (shape.modulus as u64
            + shape.rows as u64 * ROW_UNIT as u64
            + shape.columns as u64 * COLUMN_UNIT as u64
            + (head.sides as u64 - 1) * SIDE_UNIT as u64)
}

impl From<Form> for usize {
    ghost from_gives = { λ form n. n ≡ kind_number (form_of form) };

    // Returns the number of a form.
    fn from(form: Form) -> usize {
        match form {
            Form::Solution => 1,
            Form::Absence => 2,
        }
    }
}
