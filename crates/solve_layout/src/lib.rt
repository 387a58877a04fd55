// One line of a system laid out as the solver takes it: the polynomials of A and of its right side, column by column, each in its
// lane.
#![tactic(auto)]

pub mod column;
pub mod lane;

ghost use Rattle.std.specs.Prelude.{◌≡◌, ℕ, ◌+◌, ◌*◌, ◌<◌, ◌≤◌, length};
ghost use Rattle.words.specs.Limits.{office};
ghost use Rattle.words.specs.Outcome.{mapped};
ghost use Rattle.words.specs.Outcome.Outcome.{accepted};
ghost use Rattle.words.specs.System as system;
ghost use Rattle.words.specs.Systems.{read_line};
ghost use Rattle.answers.specs.Answer.{shape_of};
ghost use Rattle.vector.specs.Bound.{AtMost};
ghost use Rattle.solve_lattice.specs.Room.{lanes, input_words};
ghost use Rattle.solve_meaning.specs.SystemIn.{system_in_lanes, SystemArea};
ghost use Rattle.solve_layout.specs.Column.{FitsSlot};
ghost use Rattle.solve_layout.specs.Matrix.{LaidOut};

use answers::Shape;
use column::store_column;
use loader::load_line;
use loader::width::{LINE_POLYNOMIALS, SYSTEM_WIDTH};
use solve_lattice::Input;

// Lays out the polynomials of `area` as `load_line` leaves it, A row by row, then b: column j in its block of `input`, b behind the
// last column.
fn lay_area(input: &mut Input, area: &[u64], rows: usize, columns: usize)
    requires rows_le_lanes { (rows ≤ lanes) × (columns ≤ lanes) × (length input.old ≡ input_words) }
    requires slots { (k : ℕ) → k < rows * columns + rows → FitsSlot area.now k }
    ensures { LaidOut area.now rows columns input.old input.new }
{
    for j in 0..columns {
        store_column(input, j, area, j, columns, rows);
    }
    store_column(input, columns, area, rows * columns, 1, rows);
}

// Lays out the system that the line of right side `side` of `words` was read as, of that shape, in `input`, which is 0.
pub fn lay_line(input: &mut Input, words: &[u32], shape: Shape, side: usize)
    requires words_value { mapped system.shape (read_line office side words.now) ≡ accepted (shape_of shape) }
    requires area { (length input.old ≡ input_words) × AtMost 0 input.old }
    ensures { SystemArea (shape_of shape) input.new
        × (read_line office side words.now ≡ accepted (system_in_lanes (shape_of shape) input.new)) }
{
    let rows = shape.rows as usize;
    let columns = shape.columns as usize;
    let mut area = [0u64; LINE_POLYNOMIALS * SYSTEM_WIDTH];
    load_line(&mut area, words, rows, columns, side);
    lay_area(input, &area, rows, columns);
}
