// Size and leading coefficient of words, found from their end.
ghost use Rattle.std.specs.Prelude.{◌≡◌, ◌≤◌, length};
ghost use Rattle.algebra.specs.Coefficients.{leading};
ghost use Rattle.modular.specs.Modulo.{modulo};
ghost use Rattle.vector.specs.Bound.{Reducible};
ghost use Rattle.vector.specs.Reduced.{polynomial};

use crate::or::or_of_row;
use crate::sum::ROW_WORDS;
use residue::modulus::Modulus;

// The number of a polynomial's coefficients, and the last of them; both 0 for the zero polynomial.
#[derive(Clone, Copy)]
pub struct Leading {
    pub size: usize,
    pub value: u64,
}

// Finds size and leading coefficient of the polynomial that h[0] .. h[n - 1] stand for modulo p. Passes over words that are 0, of
// which there may be many at the end, in rows of eight.
pub fn find_leading(h: &[u64], n: usize, modulus: Modulus) -> Leading
    requires bounds { (n ≤ length h.now) }
    requires sums { Reducible modulus.p h.now n }
    ensures size { result.size ≡ length (polynomial modulus.p h.now 0 n) }
    ensures value { result.value ≡ leading (modulo modulus.p) (polynomial modulus.p h.now 0 n) }
{
    let mut k = n;
    // no plainer as a chain: it ends at a row that is not 0, and not at a count. The last word first: where it is not 0, the row need
    // not be read
    while ROW_WORDS <= k && h[k - 1] == 0 && or_of_row(h, k - ROW_WORDS) == 0 {
        k -= ROW_WORDS;
    }
    find_leading_near(h, k, modulus)
}

// Does the same word by word, for a leading coefficient near the end. Reduces a word that is 0 like any other, since the processor
// cannot foresee which are.
pub fn find_leading_near(h: &[u64], n: usize, modulus: Modulus) -> Leading
    requires bounds { (n ≤ length h.now) }
    requires sums { Reducible modulus.p h.now n }
    ensures size { result.size ≡ length (polynomial modulus.p h.now 0 n) }
    ensures value { result.value ≡ leading (modulo modulus.p) (polynomial modulus.p h.now 0 n) }
{
    for k in (0..n).rev() {
        let value = modulus.reduce(h[k]);
        if value != 0 {
            return Leading { size: k + 1, value };
        }
    }
    Leading { size: 0, value: 0 }
}
