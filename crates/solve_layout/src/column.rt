// One column: a polynomial for each row, row i in lane 7 - i.
ghost use Rattle.std.specs.Prelude.{◌≡◌, ℕ, ◌+◌, ◌*◌, ◌<◌, ◌≤◌, length};
ghost use Rattle.solve_lattice.specs.Room.{lanes, input_words};
ghost use Rattle.solve_layout.specs.Column.{FitsSlot, ColumnStored};

use crate::lane::store_lane;
use loader::coefficients_in;
use loader::width::SYSTEM_WIDTH;
use solve_lattice::{BLOCK, Input, LAST_LANE};

// Stores column j: the polynomial of row i is in slot first + step i of `area`.
pub fn store_column(
    input: &mut Input,
    j: usize,
    area: &[u64],
    first: usize,
    step: usize,
    rows: usize,
)
    requires j_le_lanes { (j ≤ lanes) × (rows ≤ lanes) × (length input.old ≡ input_words) }
    requires slots { (i : ℕ) → i < rows → FitsSlot area.now (first + step * i) }
    ensures { ColumnStored j area.now first step rows input.old input.new }
{
    for i in 0..rows {
        let f = coefficients_in(area, SYSTEM_WIDTH, first + step * i);
        store_lane(input, BLOCK * j + (LAST_LANE - i), f);
    }
}
