// A multiple of the factors of a column taken off the quotients, in each lane.
ghost use Rattle.std.specs.Prelude.{◌≡◌, ℕ, ◌<◌, ◌≤◌, length, get_or};
ghost use Rattle.vector.specs.Reduced.{polynomial};
ghost use Rattle.solve_lattice.specs.Room.{block_words};
ghost use Rattle.solve_descent.specs.Multiple.{SubtractsMultiple};

use crate::product::{Terms, subtract_product};
use residue::modulus::Modulus;
use solve_lattice::{BLOCK, Block, COEFFICIENTS, LANES, Product};
use vector::{find_leading, reduce_range};

// Counts the words of `factors` up to the last that is not 0, in whole rows of eight.
fn count_words(factors: &[u64], modulus: Modulus) -> usize
    requires { (length factors.now ≡ block_words) × ((i : ℕ) → get_or factors.now i 0 < modulus.p) }
    ensures { (length (polynomial modulus.p factors.now 0 block_words) ≤ result) × (result ≤ block_words) }
{
    let found = find_leading(factors, BLOCK, modulus);
    found.size.next_multiple_of(LANES)
}

// Takes y times `factors` off `quotients` in each lane, and reduces what that touched.
pub fn subtract_multiple(quotients: &mut Product, y: &Block, factors: &[u64], modulus: Modulus)
    requires words { (i : ℕ) → get_or quotients.old i 0 < modulus.p }
    requires multiple { (i : ℕ) → get_or y.now i 0 < modulus.p }
    requires factors { (length factors.now ≡ block_words) × ((i : ℕ) → get_or factors.now i 0 < modulus.p) }
    ensures { SubtractsMultiple modulus.p quotients.old y.now factors.now
        quotients.new }
{
    // y has at most 121 coefficients (L6), and the quotients have no room for more
    let count = find_leading(y, BLOCK, modulus).size.min(COEFFICIENTS);
    if count == 0 {
        return;
    }
    let words = count_words(factors, modulus);
    let terms = Terms {
        at: 0,
        step: 1,
        count,
    };
    subtract_product(quotients, LANES, y, terms, factors, 0, words, modulus);
    reduce_range(quotients, LANES * count + words - LANES, modulus);
}
