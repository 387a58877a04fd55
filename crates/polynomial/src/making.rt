// Values made, and asked for what they are.
ghost use Rattle.std.specs.Prelude.{◌≡◌, [], ℕ, ◌+◌, ◌<◌, ◌≤◌, length, get_or};
ghost use Rattle.algebra.specs.Coefficients.{one, leading};
ghost use Rattle.modular.specs.Modulo.{modulo};
ghost use Rattle.residue.specs.Sum.{SmallSum};
ghost use Rattle.vector.specs.Reduced.{polynomial};
ghost use Rattle.polynomial_words.specs.Decides.{Decides};
ghost use Rattle.polynomial.specs.Value.{polynomial_room, coefficients_of, Represents};

use crate::value::{Polynomial, zeros};
use polynomial_words::copy_polynomial;
use residue::modulus::Modulus;

impl Polynomial {
    // Returns the zero polynomial.
    pub fn zero() -> Polynomial
        ensures { (p : ℕ) → Represents p result [] }
    {
        let words = zeros();
        Polynomial {
            size: 0,
            coefficients: words,
        }
    }

    // Returns the polynomial 1.
    pub fn one() -> Polynomial
        ensures { (p : ℕ) → 1 < p → Represents p result (one (modulo p)) }
    {
        let mut words = zeros();
        words[0] = 1;
        Polynomial {
            size: 1,
            coefficients: words,
        }
    }

    // Returns the polynomial that n words from the place a on stand for: sums that need not be reduced, with zeros at the end.
    pub fn from_words(words: &[u64], a: usize, n: usize, modulus: Modulus) -> Polynomial
        requires bounds { (n ≤ polynomial_room) × (a + n ≤ length words.now) }
        requires small { (i : ℕ) → i < n → SmallSum modulus.p (get_or words.now (a + i) 0) }
        ensures { Represents modulus.p result (polynomial modulus.p words.now a n) }
    {
        let mut residues = zeros();
        let count = copy_polynomial(&mut residues, words, a, n, modulus);
        Polynomial {
            size: count,
            coefficients: residues,
        }
    }

    // Tells whether it is the zero polynomial.
    pub fn is_zero(self) -> bool
        ensures { Decides result (coefficients_of self ≡ []) }
    {
        self.size == 0
    }

    // Returns the coefficient of the highest power; the zero polynomial's is 0.
    pub fn leading(self) -> u64
        requires { self.size ≤ polynomial_room }
        ensures { (p : ℕ) → result ≡ leading (modulo p) (coefficients_of self) }
    {
        self.coefficients[..self.size].last().copied().unwrap_or(0)
    }
}
