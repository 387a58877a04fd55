// The combination of the tails of a level, with the quotients for coefficients.
ghost use Rattle.std.specs.Prelude.{ℕ, ◌+◌, ◌*◌, ◌<◌, ◌≤◌, get_or};
ghost use Rattle.vector.specs.Bound.{AtMost};
ghost use Rattle.solve_lattice.specs.Room.{lanes, block_words, slot_words, tail_words, product_degrees};
ghost use Rattle.solve_lattice.specs.Memory.{ValidLevel};
ghost use Rattle.solve_descent.specs.Combination.{TakesCombination};

use crate::product::{Terms, subtract_product};
use residue::modulus::Modulus;
use solve_lattice::{BLOCK, LANES, LAST_LANE, Level, Product, SLOT, TAIL_SIZES, Tail};

// Takes the sum of quotient times tail over the first `rows` slots of `level` off y, which is 0; of a quotient `count` terms count.
pub fn subtract_combination(
    y: &mut Tail,
    quotients: &Product,
    count: usize,
    level: &Level,
    rows: usize,
    modulus: Modulus,
)
    requires bounds { (rows ≤ lanes) × (count ≤ product_degrees) × ValidLevel modulus.p level.now }
    requires zero { AtMost 0 y.old }
    requires factors { (i : ℕ) → get_or quotients.now i 0 < modulus.p }
    ensures { TakesCombination modulus.p 1 tail_words quotients.now (λ _. count) level.now
        (λ q. slot_words * q + block_words) rows y.old y.new }
{
    for q in 0..rows {
        let size = level[TAIL_SIZES + q] as usize;
        let terms = Terms {
            at: LAST_LANE - q,
            step: LANES,
            count,
        };
        subtract_product(
            y,
            1,
            quotients,
            terms,
            level,
            SLOT * q + BLOCK,
            size,
            modulus,
        );
    }
}
