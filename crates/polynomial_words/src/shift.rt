// Multiplication by x modulo a polynomial, on words. Nothing is moved: the window in which the polynomial stands slides down.
ghost use Rattle.std.specs.Prelude.{◌≡◌, ℕ, ◌+◌, ◌<◌, length, get_or, take};
ghost use Rattle.algebra.specs.Coefficients.{shift, remainder};
ghost use Rattle.modular.specs.Modulo.{modulo};
ghost use Rattle.vector.specs.Reduced.{polynomial};
ghost use Rattle.polynomial_words.specs.Long.{Divisor};
ghost use Rattle.polynomial_words.specs.Window.{ReducedFrom};

use residue::modulus::Modulus;
use vector::{add_scaled, reduce_range};

// Replaces the polynomial f in e words of h from the place a + 1 on by x f modulo d, in e words from the place a on. d has e + 1
// coefficients. The word behind becomes 0, those further on stay. Reduces from the first word on: those before a are 0 and stay so.
pub fn multiply_by_x(h: &mut [u64], a: usize, d: &[u64], e: usize, inverse: u64, modulus: Modulus)
    requires bounds { (a + e < length h.old) × ReducedFrom modulus.p h.old (a + 1) }
    requires divisor { Divisor modulus.p d.now e inverse }
    ensures value { polynomial modulus.p h.new a e ≡
        remainder (modulo modulus.p) (shift (modulo modulus.p) 1 (polynomial modulus.p h.old (a + 1) e))
        (take (e + 1) d.now) }
    ensures reduced { ReducedFrom modulus.p h.new a }
    ensures rest { (get_or h.new (a + e) 0 ≡ 0)
        × ((i : ℕ) → a + e < i → get_or h.new i 0 ≡ get_or h.old i 0) }
{
    let c = modulus.mul(h[a + e], inverse);
    add_scaled(h, a, d, 0, e + 1, modulus.p - c);
    reduce_range(h, a + e + 1, modulus);
}
