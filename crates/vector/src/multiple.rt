// hand := hand + c·x^k·slot, the step of insertion, division and product.
ghost use Rattle.std.specs.Prelude.{◌≡◌, ℕ, ◌+◌, ◌<◌, ◌≤◌, length, get_or};
ghost use Rattle.modular.specs.Bits.{bound32, bound64};
ghost use Rattle.vector.specs.Stored.{stored};
ghost use Rattle.vector.specs.Multiple.{sum_at, GainsMultiple};

use crate::sum::{ROW_WORDS, add_row, sum_at};

// Adds c * s[a + j] to h[d + j] for j below n, in rows of eight and what is left word by word.
pub fn add_scaled(h: &mut [u64], d: usize, s: &[u64], a: usize, n: usize, c: u64)
    requires n_in_bounds { (d + n ≤ length h.old) × (a + n ≤ length s.now) × (c < bound32) }
    requires small { (j : ℕ) → j < n → get_or s.now (a + j) 0 < bound32 }
    requires fits { (j : ℕ) → j < n → sum_at h.old d s.now a c j < bound64 }
    ensures words { h.new ≡ stored (sum_at h.old d s.now a c) h.old d n }
    ensures polynomials { GainsMultiple h.old h.new d s.now a n c }
{
    let rows = n / ROW_WORDS;
    for row in 0..rows {
        let j = ROW_WORDS * row;
        add_row(h, d + j, s, a + j, c);
    }
    for left in 0..n % ROW_WORDS {
        let j = ROW_WORDS * rows + left;
        h[d + j] = sum_at(h, d, s, a, c, j);
    }
}
