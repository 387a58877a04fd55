// Products: all terms of a product are added up before they are reduced.
ghost use Rattle.std.specs.Prelude.{◌+◌, ◌≤◌};
ghost use Rattle.algebra.specs.Coefficients.{add, mul};
ghost use Rattle.modular.specs.Modulo.{modulo};
ghost use Rattle.polynomial.specs.Value.{polynomial_room, coefficients_of, ValidPolynomial, Represents};

use crate::value::Polynomial;
use polynomial_words::add_rows;
use residue::modulus::Modulus;

impl Polynomial {
    // Returns self + f g.
    pub fn add_product(self, f: Polynomial, g: Polynomial, modulus: Modulus) -> Polynomial
        requires polynomials { ValidPolynomial modulus.p self × ValidPolynomial modulus.p f × ValidPolynomial modulus.p g }
        requires room { f.size + g.size ≤ polynomial_room + 1 }
        ensures { Represents modulus.p result
            (add (modulo modulus.p) (coefficients_of self) (mul (modulo modulus.p) (coefficients_of f) (coefficients_of g))) }
    {
        let mut h = self.coefficients;
        add_rows(&mut h, &f.coefficients, f.size, &g.coefficients, g.size);
        Polynomial::from_words(&h, 0, (self.size + 1).max(f.size + g.size) - 1, modulus)
    }

    // Returns self g.
    pub fn multiply(self, g: Polynomial, modulus: Modulus) -> Polynomial
        requires { ValidPolynomial modulus.p self × ValidPolynomial modulus.p g
            × (self.size + g.size ≤ polynomial_room + 1) }
        ensures { Represents modulus.p result (mul (modulo modulus.p) (coefficients_of self) (coefficients_of g)) }
    {
        Polynomial::zero().add_product(self, g, modulus)
    }
}
