// A polynomial times a flat block, and times a polynomial.
ghost use Rattle.std.specs.Prelude.{ℕ, ◌+◌, ◌*◌, ◌<◌, ◌≤◌, length, get_or};
ghost use Rattle.vector.specs.Bound.{AtMost};
ghost use Rattle.solve_lattice.specs.Room.{lanes, block_words, product_words};
ghost use Rattle.solve_second.specs.Product.{BlockMultiplied, Multiplied};

use residue::modulus::Modulus;
use solve_descent::{Terms, store_negated, subtract_product};
use solve_lattice::{BLOCK, Block, LANES, Product};
use vector::{clear, reduce_range};

// Multiplies the first m words of `block`, of 8 lanes, by f, its first n words, into `out`, which is 0, in sums that are not
// reduced: the product is divided next, and a division takes such sums.
pub fn multiply_block(
    out: &mut Product,
    f: &Block,
    n: usize,
    block: &[u64],
    m: usize,
    modulus: Modulus,
)
    requires bounds { (n ≤ block_words) × (m ≤ length block.now) × (n * lanes + m ≤ product_words + lanes) }
    requires small { ((i : ℕ) → get_or f.now i 0 < modulus.p) × ((i : ℕ) → get_or block.now i 0 < modulus.p) }
    requires zeros { AtMost 0 out.old }
    ensures { BlockMultiplied modulus.p f.now n block.now m out.new }
{
    let mut negated = [0u64; BLOCK];
    store_negated(&mut negated, 0, f, n, modulus);
    let terms = Terms {
        at: 0,
        step: 1,
        count: n,
    };
    subtract_product(out, LANES, &negated, terms, block, 0, m, modulus);
}

// Multiplies f, its first n words, by g, its first m, into `out`. What stood there is lost.
pub fn multiply(out: &mut Block, f: &Block, n: usize, g: &Block, m: usize, modulus: Modulus)
    requires bounds { (n ≤ block_words) × (m ≤ block_words) × (n + m ≤ block_words + 1) }
    requires small { ((i : ℕ) → get_or f.now i 0 < modulus.p) × ((i : ℕ) → get_or g.now i 0 < modulus.p) }
    ensures { Multiplied modulus.p f.now n g.now m out.new }
{
    let mut negated = [0u64; BLOCK];
    store_negated(&mut negated, 0, f, n, modulus);
    clear(out, 0, BLOCK);
    let terms = Terms {
        at: 0,
        step: 1,
        count: n,
    };
    subtract_product(out, 1, &negated, terms, g, 0, m, modulus);
    // the words behind the product are 0 still
    reduce_range(out, (n + m).saturating_sub(1), modulus);
}
