// The polynomial that words stand for, copied with its coefficients reduced.
ghost use Rattle.std.specs.Prelude.{◌≡◌, ℕ, ◌+◌, ◌%◌, ◌<◌, ◌≤◌, length, get_or};
ghost use Rattle.residue.specs.Sum.{SmallSum};
ghost use Rattle.vector.specs.Reduced.{polynomial};
ghost use Rattle.vector.specs.Stored.{stored};

use residue::modulus::Modulus;
use vector::{find_leading, store_each};

// Copies s[a + j] to h[j], reduced modulo p, for j below n.
fn copy_reduced(h: &mut [u64], s: &[u64], a: usize, n: usize, modulus: Modulus)
    requires bounds { (n ≤ length h.old) × (a + n ≤ length s.now) }
    requires sums { (j : ℕ) → j < n → SmallSum modulus.p (get_or s.now (a + j) 0) }
    ensures { h.new ≡ stored (λ j. get_or s.now (a + j) 0 % modulus.p) h.old 0 n }
{
    store_each(h, 0, n, |j| modulus.reduce(s[a + j]));
}

// Does the same, and returns the number of coefficients of the polynomial that the words stand for.
pub fn copy_polynomial(h: &mut [u64], s: &[u64], a: usize, n: usize, modulus: Modulus) -> usize
    requires bounds { (n ≤ length h.old) × (a + n ≤ length s.now) }
    requires sums { (j : ℕ) → j < n → SmallSum modulus.p (get_or s.now (a + j) 0) }
    ensures words { h.new ≡ stored (λ j. get_or s.now (a + j) 0 % modulus.p) h.old 0 n }
    ensures size { result ≡ length (polynomial modulus.p s.now a n) }
{
    copy_reduced(h, s, a, n, modulus);
    find_leading(h, n, modulus).size
}
