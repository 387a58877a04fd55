// A vector of a level, made anew from its coefficients: the sum of quotient times block.
ghost use Rattle.std.specs.Prelude.{◌≡◌, ℕ, ◌*◌, ◌<◌, ◌≤◌, get_or};
ghost use Rattle.vector.specs.Bound.{AtMost};
ghost use Rattle.solve_lattice.specs.Room.{lanes, block_words, slot_words, product_words};
ghost use Rattle.solve_lattice.specs.Memory.{slot_size, ValidLevel};
ghost use Rattle.solve_descent.specs.Degrees.{FewDegrees};
ghost use Rattle.solve_descent.specs.Combination.{TakesCombination};
ghost use Rattle.solve_descent.specs.Blocks.{most_terms, block_terms, CombinesBlocks};

use crate::negated::negate;
use crate::product::{Terms, subtract_product};
use residue::modulus::Modulus;
use solve_lattice::{LANES, LAST_LANE, Level, PRODUCT_DEGREES, Product, SIZES, SLOT};
use vector::clear;

// Returns how many terms the quotient by a block of `size` words has room for.
fn most_terms(size: usize) -> usize
    requires { size ≤ block_words }
    ensures { result ≡ most_terms size }
{
    if size == 0 {
        0
    } else {
        PRODUCT_DEGREES - (size - 1) / LANES
    }
}

// Takes the sum of quotient times block over the first `rows` slots of `level` off t, which is 0.
fn subtract_blocks(
    t: &mut Product,
    quotients: &Product,
    degrees: usize,
    level: &Level,
    rows: usize,
    modulus: Modulus,
)
    requires bounds { (rows ≤ lanes) × ValidLevel modulus.p level.now }
    requires zero { AtMost 0 t.old }
    requires factors { (i : ℕ) → get_or quotients.now i 0 < modulus.p }
    ensures { TakesCombination modulus.p lanes product_words quotients.now
        (λ q. block_terms degrees (slot_size level.now q)) level.now (λ q. slot_words * q) rows
        t.old t.new }
{
    for q in 0..rows {
        let size = level[SIZES + q] as usize;
        let terms = Terms {
            at: LAST_LANE - q,
            step: LANES,
            count: degrees.min(most_terms(size)),
        };
        subtract_product(t, LANES, quotients, terms, level, SLOT * q, size, modulus);
    }
}

// Stores the sum of quotient times block over the first `rows` slots of `level` in `t`, which is 0, in sums that are not reduced.
// Negates the first `degrees` degrees of `quotients` for that, then clears them.
pub fn combine_blocks(
    t: &mut Product,
    quotients: &mut Product,
    degrees: usize,
    level: &Level,
    rows: usize,
    modulus: Modulus,
)
    requires bounds { (rows ≤ lanes) × ValidLevel modulus.p level.now }
    requires factors { (i : ℕ) → get_or quotients.old i 0 < modulus.p }
    requires degrees { FewDegrees modulus.p quotients.old degrees }
    requires zero { AtMost 0 t.old }
    ensures { CombinesBlocks modulus.p level.now rows quotients.old quotients.new
        t.new }
{
    let words = LANES * degrees;
    negate(quotients, words, modulus);
    subtract_blocks(t, quotients, degrees, level, rows, modulus);
    clear(quotients, 0, words);
}
