// The coordinate of a column: stored, and its multiple of the column taken off.
ghost use Rattle.std.specs.Prelude.{ℕ, ◌+◌, ◌*◌, ◌<◌, ◌≤◌, get_or};
ghost use Rattle.vector.specs.Bound.{AtMost};
ghost use Rattle.solve_lattice.specs.Room.{block_words, input_words, output_words, combination_products, coordinate_products};
ghost use Rattle.solve_descent.specs.Column.{TakesColumn};

use crate::negated::store_negated;
use crate::product::{Terms, subtract_product};
use residue::modulus::Modulus;
use solve_lattice::{BLOCK, COEFFICIENTS, Input, LANES, Output, Product, Tail};
use vector::find_leading;

// Stores minus y, the coordinate, in `output` from `place` on, and takes the coordinate times the column, the block of `input` from
// `at` on, off `t`, in sums that are not reduced.
pub fn take_column(
    t: &mut Product,
    output: &mut Output,
    place: usize,
    y: &Tail,
    input: &Input,
    at: usize,
    modulus: Modulus,
)
    requires bounds { (place + block_words ≤ output_words) × (at + block_words ≤ input_words) }
    requires block { AtMost (combination_products * (modulus.p * modulus.p)) t.old }
    requires coordinates { (i : ℕ) → get_or output.old i 0 < modulus.p }
    requires sums { AtMost (coordinate_products * (modulus.p * modulus.p)) y.now }
    requires column { (i : ℕ) → get_or input.now i 0 < modulus.p }
    ensures { TakesColumn modulus.p t.old output.old place y.now input.now at
        t.new output.new }
{
    store_negated(output, place, y, BLOCK, modulus);
    let found = find_leading(y, BLOCK, modulus);
    // a coordinate has at most 121 coefficients (L6), and t has no room for more
    let terms = Terms {
        at: place,
        step: 1,
        count: found.size.min(COEFFICIENTS),
    };
    subtract_product(t, LANES, output, terms, input, at, BLOCK, modulus);
}
