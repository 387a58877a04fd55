// The row of a vector's pivot.
ghost use Rattle.std.specs.Prelude.{◌≡◌, ◌<◌};
ghost use Rattle.solve_lattice.specs.Memory.{row};

use crate::room::{LANES, LAST_LANE};

// Returns the row of the last word of a block of `size` words.
pub fn pivot_row(size: usize) -> usize
    requires { 0 < size }
    ensures { result ≡ row size }
{
    LAST_LANE - (size - 1) % LANES
}
