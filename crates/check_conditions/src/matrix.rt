// Rows, columns and sides, each a sum of products.
ghost use Rattle.std.specs.Prelude.{◌+◌, ◌<◌};
ghost use Rattle.algebra.specs.Coefficients.{mul};
ghost use Rattle.modular.specs.Modulo.{modulo};
ghost use Rattle.polynomial.specs.Value.{Represents};
ghost use Rattle.words.specs.System.{side_entry};
ghost use Rattle.truth.specs.Solution.{row_of, column_of, side_of};
ghost use Rattle.check_conditions.specs.Areas.{Loaded, system_in_slots, vector_in};
ghost use Rattle.check_conditions.specs.Held.{system_of, denominator_of, numerators_of, absent_system_of, kernel_of};

use crate::areas::{AbsenceAreas, SolutionAreas};
use crate::dimensions::Dimensions;
use crate::sum::sum_of_products;
use polynomial::Polynomial;

impl SolutionAreas<'_> {
    // Returns row i of A·N.
    pub fn row(&self, i: usize) -> Polynomial
        requires { i < self.now.dimensions.rows }
        ensures { Represents self.now.dimensions.modulus.p result (row_of (system_of self.now) (numerators_of self.now) i) }
    {
        let first = i * self.dimensions.columns;
        let count = self.dimensions.columns;
        let modulus = self.dimensions.modulus;
        sum_of_products(self.system, first, 1, self.certificate, 1, count, modulus)
    }

    // Returns row i of d·b.
    pub fn target(&self, i: usize) -> Polynomial
        requires { i < self.now.dimensions.rows }
        ensures { Represents self.now.dimensions.modulus.p result
            (mul (modulo self.now.dimensions.modulus.p) (denominator_of self.now) (side_entry (system_of self.now) i)) }
    {
        let first = self.dimensions.rows * self.dimensions.columns + i;
        let modulus = self.dimensions.modulus;
        sum_of_products(self.system, first, 1, self.certificate, 0, 1, modulus)
    }
}

impl AbsenceAreas<'_> {
    // Returns column j of q·A.
    pub fn column(&self, j: usize) -> Polynomial
        requires { j < self.now.dimensions.columns }
        ensures { Represents self.now.dimensions.modulus.p result
            (column_of (absent_system_of self.now) (kernel_of self.now) j) }
    {
        let rows = self.dimensions.rows;
        let columns = self.dimensions.columns;
        let modulus = self.dimensions.modulus;
        sum_of_products(self.system, j, columns, self.certificate, 0, rows, modulus)
    }
}

// Returns Z·b, where Z stands in `certificate` from slot `start` on. It takes the areas one by one, for both structs of them have one.
pub fn side(system: &[u64], certificate: &[u64], start: usize, dimensions: Dimensions) -> Polynomial
    requires { Loaded dimensions (start + dimensions.rows) system.now certificate.now }
    ensures { Represents dimensions.modulus.p result
        (side_of (system_in_slots dimensions system.now) (vector_in dimensions.rows start certificate.now)) }
{
    let rows = dimensions.rows;
    let columns = dimensions.columns;
    let modulus = dimensions.modulus;
    sum_of_products(system, rows * columns, 1, certificate, start, rows, modulus)
}
