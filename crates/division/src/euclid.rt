// The greatest common divisor, by Euclid's algorithm.
ghost use Rattle.algebra.specs.Coefficients.{gcd};
ghost use Rattle.modular.specs.Modulo.{modulo};
ghost use Rattle.polynomial.specs.Value.{coefficients_of, ValidPolynomial, Represents};

use crate::remainder;
use polynomial::Polynomial;
use residue::modulus::Modulus;

// Returns the monic greatest common divisor of f and g; zero where both are zero.
pub fn gcd(f: Polynomial, g: Polynomial, modulus: Modulus) -> Polynomial
    requires { ValidPolynomial modulus.p f × ValidPolynomial modulus.p g }
    ensures { Represents modulus.p result (gcd (modulo modulus.p) (coefficients_of f) (coefficients_of g)) }
{
    let mut a = f;
    let mut b = g;
    // A `while`, since nobody knows the number of divisions before.
    while 0 < b.size {
        let r = remainder(a, b, modulus);
        a = b;
        b = r;
    }
    a.monic(modulus)
}
