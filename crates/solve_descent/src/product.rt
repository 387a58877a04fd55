// A product taken off words in lanes: of tails with one lane, of a block with eight.
ghost use Rattle.std.specs.Prelude.{ℕ, ◌+◌, ◌*◌, ◌<◌, ◌≤◌, length, get_or};
ghost use Rattle.vector.specs.Bound.{AtMost};
ghost use Rattle.solve_lattice.specs.Room.{most_factors};
ghost use Rattle.solve_descent.specs.Product.{TakesProduct, dividend_most};

use residue::modulus::Modulus;
use vector::add_scaled;

// Where the coefficients of a polynomial stand in an array: `count` of them, at `at`, `at + step`, `at + 2·step`, ..
#[derive(Clone, Copy)]
pub struct Terms {
    pub at: usize,
    pub step: usize,
    pub count: usize,
}

// Takes f·s off h in each of w lanes: f has the coefficients that `terms` says, and s has m words from a on.
pub fn subtract_product(
    h: &mut [u64],
    w: usize,
    f: &[u64],
    terms: Terms,
    s: &[u64],
    a: usize,
    m: usize,
    modulus: Modulus,
)
    requires bounds { (terms.count ≤ most_factors) × (terms.count * w + m ≤ length h.old + w)
        × (a + m ≤ length s.now) }
    requires factors { (terms.at + terms.count * terms.step < length f.now + terms.step)
        × ((i : ℕ) → get_or f.now i 0 < modulus.p) }
    requires small { AtMost dividend_most h.old × ((j : ℕ) → j < m → get_or s.now (a + j) 0 < modulus.p) }
    ensures { TakesProduct modulus.p w h.old f.now terms.at terms.step terms.count
        s.now a m h.new }
{
    // many tails have no words
    if m == 0 {
        return;
    }
    let Terms { at, step, count } = terms;
    // by index: `factors` allows a step of 0 and, with no terms, an `at` behind f, at which step_by and a slice of f would stop
    for k in 0..count {
        let factor = f[at + k * step];
        // most factors of a quotient are 0
        if 0 < factor {
            add_scaled(h, k * w, s, a, m, modulus.p - factor);
        }
    }
}
