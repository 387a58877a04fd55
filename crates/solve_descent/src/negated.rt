// Words negated, where they stand or stored elsewhere.
ghost use Rattle.std.specs.Prelude.{◌≡◌, ℕ, ◌+◌, ◌%◌, ◌<◌, ◌≤◌, length, get_or};
ghost use Rattle.modular.specs.Modulo.{modulo};
ghost use Rattle.vector.specs.Bound.{Reducible};
ghost use Rattle.vector.specs.Stored.{stored};

use residue::modulus::Modulus;
use vector::store_each;

// Stores -y[j] modulo p at h[a + j] for j below n.
pub fn store_negated(h: &mut [u64], a: usize, y: &[u64], n: usize, modulus: Modulus)
    requires bounds { (a + n ≤ length h.old) × (n ≤ length y.now) }
    requires sums { Reducible modulus.p y.now n }
    ensures { h.new ≡ stored (λ j. (modulo modulus.p).neg (get_or y.now j 0 % modulus.p))
        h.old a n }
{
    store_each(h, a, n, |j| modulus.neg(modulus.reduce(y[j])));
}

// Negates h[j] modulo p for j below n.
pub fn negate(h: &mut [u64], n: usize, modulus: Modulus)
    requires { (n ≤ length h.old) × ((i : ℕ) → get_or h.old i 0 < modulus.p) }
    ensures { h.new ≡ stored (λ j. (modulo modulus.p).neg (get_or h.old j 0)) h.old 0 n }
{
    for word in &mut h[..n] {
        *word = modulus.neg(*word);
    }
}
