// Division of polynomials modulo a prime, and what is made of it: remainder, quotient and greatest common divisor.
#![tactic(auto)]

ghost use Rattle.std.specs.Prelude.{◌<◌};
ghost use Rattle.algebra.specs.Coefficients.{quotient, remainder};
ghost use Rattle.modular.specs.Modulo.{modulo};
ghost use Rattle.polynomial.specs.Value.{coefficients_of, ValidPolynomial, Represents};

use polynomial::Polynomial;
use polynomial::value::zeros;
use polynomial_words::divide_words;
use residue::modulus::Modulus;

pub mod euclid;

pub use euclid::gcd;

// What a division gives.
#[derive(Clone, Copy)]
pub struct Division {
    pub quotient: Polynomial,
    pub remainder: Polynomial,
}

// Divides f by d, which is not zero.
pub fn divide(f: Polynomial, d: Polynomial, modulus: Modulus) -> Division
    requires { ValidPolynomial modulus.p f × ValidPolynomial modulus.p d × (0 < d.size) }
    ensures quotient { Represents modulus.p result.quotient
        (quotient (modulo modulus.p) (coefficients_of f) (coefficients_of d)) }
    ensures remainder { Represents modulus.p result.remainder
        (remainder (modulo modulus.p) (coefficients_of f) (coefficients_of d)) }
{
    let inverse = modulus.inverse(d.leading());
    let n = f.size;
    let mut h = f.coefficients;
    let mut q = zeros();
    divide_words(
        &mut h,
        n,
        &mut q,
        &d.coefficients,
        d.size - 1,
        inverse,
        modulus,
    );
    let quotient = Polynomial::from_words(&q, 0, n, modulus);
    let remainder = Polynomial::from_words(&h, 0, n, modulus);
    Division {
        quotient,
        remainder,
    }
}

// Returns the quotient of f by d, which is not zero. Where d divides f, it is f / d.
pub fn quotient(f: Polynomial, d: Polynomial, modulus: Modulus) -> Polynomial
    requires { ValidPolynomial modulus.p f × ValidPolynomial modulus.p d × (0 < d.size) }
    ensures { Represents modulus.p result (quotient (modulo modulus.p) (coefficients_of f) (coefficients_of d)) }
{
    divide(f, d, modulus).quotient
}

// Returns the remainder of f by d, which is not zero.
pub fn remainder(f: Polynomial, d: Polynomial, modulus: Modulus) -> Polynomial
    requires { ValidPolynomial modulus.p f × ValidPolynomial modulus.p d × (0 < d.size) }
    ensures { Represents modulus.p result (remainder (modulo modulus.p) (coefficients_of f) (coefficients_of d)) }
{
    divide(f, d, modulus).remainder
}
