// Whether two polynomials are equal.
ghost use Rattle.std.specs.Prelude.{◌≡◌, ◌≤◌};
ghost use Rattle.polynomial.specs.Value.{polynomial_room, coefficients_of};
ghost use Rattle.polynomial_words.specs.Decides.{Decides};

use crate::value::Polynomial;
use polynomial_words::same_words;

impl Polynomial {
    // Tells whether self and g are equal. A derived `==` would read the words behind the size too, of which the clause says nothing.
    pub fn equal(self, g: Polynomial) -> bool
        requires { (self.size ≤ polynomial_room) × (g.size ≤ polynomial_room) }
        ensures { Decides result (coefficients_of self ≡ coefficients_of g) }
    {
        self.size == g.size && same_words(&self.coefficients, &g.coefficients, self.size)
    }
}
