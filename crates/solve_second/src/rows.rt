// The quotients by the transposed slots as the rows of the second system's solution.
ghost use Rattle.std.specs.Prelude.{◌≡◌, ◌≤◌, length};
ghost use Rattle.vector.specs.Stored.{stored};
ghost use Rattle.solve_lattice.specs.Room.{rows_words, lanes};
ghost use Rattle.solve_second.specs.QuotientRows.{quotient_word};

use solve_descent::gather_lane;
use solve_lattice::{BLOCK, LAST_LANE, Product, ROWS};
use vector::clear;

// Stores row k of the solution, the lane of slot n - 1 - k of `quotients`, from BLOCK * k on, and 0 for the rows behind.
pub fn store_rows(rows: &mut [u64], quotients: &Product, n: usize)
    requires { (n ≤ lanes) × (rows_words ≤ length rows.old) }
    ensures { rows.new ≡ stored (quotient_word quotients.now n) rows.old 0 rows_words }
{
    for k in 0..n {
        gather_lane(rows, BLOCK * k, quotients, LAST_LANE - (n - 1 - k));
    }
    clear(rows, BLOCK * n, ROWS - BLOCK * n);
}
