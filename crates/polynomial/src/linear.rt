// Sums and multiples, and the monic associate.
ghost use Rattle.std.specs.Prelude.{◌<◌};
ghost use Rattle.algebra.specs.Coefficients.{add, subtract, scale, monic};
ghost use Rattle.modular.specs.Modulo.{modulo};
ghost use Rattle.polynomial.specs.Value.{coefficients_of, ValidPolynomial, Represents};

use crate::value::Polynomial;
use residue::modulus::Modulus;
use vector::add_scaled;

impl Polynomial {
    // Returns self + c g. A sum, a difference and a multiple are each one of these.
    pub fn add_multiple(self, c: u64, g: Polynomial, modulus: Modulus) -> Polynomial
        requires { ValidPolynomial modulus.p self × (c < modulus.p)
            × ValidPolynomial modulus.p g }
        ensures { Represents modulus.p result
            (add (modulo modulus.p) (coefficients_of self) (scale (modulo modulus.p) c (coefficients_of g))) }
    {
        let mut h = self.coefficients;
        add_scaled(&mut h, 0, &g.coefficients, 0, g.size, c);
        Polynomial::from_words(&h, 0, self.size.max(g.size), modulus)
    }

    // Returns self + g.
    pub fn add(self, g: Polynomial, modulus: Modulus) -> Polynomial
        requires { ValidPolynomial modulus.p self × ValidPolynomial modulus.p g }
        ensures { Represents modulus.p result (add (modulo modulus.p) (coefficients_of self) (coefficients_of g)) }
    {
        self.add_multiple(1, g, modulus)
    }

    // Returns self - g.
    pub fn subtract(self, g: Polynomial, modulus: Modulus) -> Polynomial
        requires { ValidPolynomial modulus.p self × ValidPolynomial modulus.p g }
        ensures { Represents modulus.p result (subtract (modulo modulus.p) (coefficients_of self) (coefficients_of g)) }
    {
        self.add_multiple(modulus.p - 1, g, modulus)
    }

    // Returns c self.
    pub fn scale(self, c: u64, modulus: Modulus) -> Polynomial
        requires { ValidPolynomial modulus.p self × (c < modulus.p) }
        ensures { Represents modulus.p result (scale (modulo modulus.p) c (coefficients_of self)) }
    {
        Polynomial::zero().add_multiple(c, self, modulus)
    }

    // Divides by the leading coefficient; zero stays zero.
    pub fn monic(self, modulus: Modulus) -> Polynomial
        requires { ValidPolynomial modulus.p self }
        ensures { Represents modulus.p result (monic (modulo modulus.p) (coefficients_of self)) }
    {
        if self.size < 1 {
            return self;
        }
        let inverse = modulus.inverse(self.leading());
        self.scale(inverse, modulus)
    }
}
