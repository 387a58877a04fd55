// Long division on words. What is left of the dividend is kept in sums that are not reduced.
ghost use Rattle.std.specs.Prelude.{◌+◌, ◌≤◌, length, take};
ghost use Rattle.modular.specs.Canonical.{Canonical};
ghost use Rattle.vector.specs.Bound.{AtMost};
ghost use Rattle.polynomial_words.specs.Product.{unreduced_terms};
ghost use Rattle.polynomial_words.specs.Long.{Divisor, LongDivided};

use residue::modulus::Modulus;
use vector::add_scaled;

// Takes multiples of d, which has e + 1 coefficients, off n words of h until only e places are left; stores the factors in q.
pub fn divide_words(
    h: &mut [u64],
    n: usize,
    q: &mut [u64],
    d: &[u64],
    e: usize,
    inverse: u64,
    modulus: Modulus,
)
    requires bounds { (n ≤ unreduced_terms) × (n ≤ length h.old) × (n ≤ length q.old) }
    requires dividend { Canonical modulus.p (take n h.old) × AtMost modulus.p h.old }
    requires divisor { Divisor modulus.p d.now e inverse }
    requires zero { AtMost 0 q.old }
    ensures { LongDivided modulus.p (take n h.old) n (take (e + 1) d.now)
        q.new h.new }
{
    for k in (e..n).rev() {
        let c = modulus.mul(modulus.reduce(h[k]), inverse);
        q[k - e] = c;
        add_scaled(h, k - e, d, 0, e + 1, modulus.p - c);
    }
}
