// The right side that an argument asks for.
ghost use Rattle.std.specs.Prelude.{◌+◌, ◌*◌, ◌≤◌, min, ◌≡◌};
ghost use Rattle.streams.specs.Side.{number_written, most_side, at_most, side_said, SideWithin};

use std::env::{Env, FillError};

// Numbers from this one on are taken for it: no sheet has as many right sides.
const MOST_SIDE: usize = 65535;

// Returns the number of which `value` are the first digits and `digit` is the next, or MOST_SIDE where that is less.
fn next_value(value: usize, digit: u32) -> usize
    requires { value ≤ most_side }
    ensures { result ≡ min (10 * value + digit) most_side }
{
    (10 * value + digit as usize).min(MOST_SIDE)
}

// Reads the number that `argument` writes: digits, one or more. (The standard library's `parse` takes a sign too, and fails where a
// number is too large.)
pub fn read_side(argument: &[u8]) -> Option<usize>
    ensures { side_said result ≡ at_most (number_written argument.now) }
{
    if argument.is_empty() {
        return None;
    }
    let mut value: usize = 0;
    for byte in argument {
        let digit = char::from(*byte).to_digit(10)?;
        value = next_value(value, digit);
    }
    Some(value)
}

// The bytes of the longest argument that is read.
pub const ARGUMENT_SPACE: usize = 4096;

// Whether the program was started with an argument `index`, its own name being the first, 0.
pub fn has_argument<P: Env>(program: &P, index: usize) -> bool {
    let mut start = [0u8; 1];
    !matches!(program.arg(index, &mut start), Err(FillError::NotPresent))
}

// Reads the right side that argument `index` asks for: 0 where there are not as many arguments, none where it has more than 4,096
// bytes.
pub fn side_asked<P: Env>(program: &P, index: usize) -> Option<usize>
    ensures { SideWithin result }
{
    let mut bytes = [0u8; ARGUMENT_SPACE];
    match program.arg(index, &mut bytes) {
        Ok(n) => read_side(&bytes[..n]),
        Err(FillError::NotPresent) => Some(0),
        Err(FillError::TooLong) => None,
    }
}
