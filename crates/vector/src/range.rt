// A range of words reduced, cleared, copied to another, and exchanged with another.
ghost use Rattle.std.specs.Prelude.{◌≡◌, ◌+◌, ◌%◌, ◌≤◌, length, get_or};
ghost use Rattle.vector.specs.Bound.{Reducible};
ghost use Rattle.vector.specs.Stored.{stored};

use crate::each::store_each;
use residue::modulus::Modulus;

// Reduces h[j] modulo p for j below n.
pub fn reduce_range(h: &mut [u64], n: usize, modulus: Modulus)
    requires bounds { (n ≤ length h.old) }
    requires sums { Reducible modulus.p h.old n }
    ensures { h.new ≡ stored (λ j. get_or h.old j 0 % modulus.p) h.old 0 n }
{
    for word in &mut h[..n] {
        *word = modulus.reduce(*word);
    }
}

// Clears h[a + j] for j below n.
pub fn clear(h: &mut [u64], a: usize, n: usize)
    requires { a + n ≤ length h.old }
    ensures { h.new ≡ stored (λ j. 0) h.old a n }
{
    h[a..a + n].fill(0);
}

// Copies s[a + j] to h[d + j] for j below n.
pub fn copy(h: &mut [u64], d: usize, s: &[u64], a: usize, n: usize)
    requires { (d + n ≤ length h.old) × (a + n ≤ length s.now) }
    ensures { h.new ≡ stored (λ j. get_or s.now (a + j) 0) h.old d n }
{
    // not by copy_from_slice, for which an archive for C needs `memmove`
    store_each(h, d, n, |j| s[a + j]);
}

// Exchanges h[j] and s[a + j] for j below n; reduces what goes into s.
pub fn exchange(h: &mut [u64], s: &mut [u64], a: usize, n: usize, modulus: Modulus)
    requires bounds { (n ≤ length h.old) × (a + n ≤ length s.old) }
    requires sums { Reducible modulus.p h.old n }
    ensures hand { h.new ≡ stored (λ j. get_or s.old (a + j) 0) h.old 0 n }
    ensures slot { s.new ≡ stored (λ j. get_or h.old j 0 % modulus.p) s.old a n }
{
    for (j, word) in h[..n].iter_mut().enumerate() {
        let value = modulus.reduce(*word);
        *word = s[a + j];
        s[a + j] = value;
    }
}
