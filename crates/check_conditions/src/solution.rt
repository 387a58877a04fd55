// 31 to 34: a certificate that holds d, N, w and Z.
ghost use Rattle.std.specs.Prelude.{◌≡◌, ℕ, ◌+◌, ◌*◌, ◌≤◌, ◌<◌, length, get_or};
ghost use Rattle.truth.specs.Verdict.{monic?, solution_verdict};
ghost use Rattle.answers.specs.Answer.{verdict_outcome};
ghost use Rattle.loader.specs.Slot.{slot};
ghost use Rattle.loader.specs.Widths.{certificate_width};
ghost use Rattle.check_conditions.specs.Areas.{Loaded, system_in_slots, denominator_in};
ghost use Rattle.check_conditions.specs.Areas.{numerators_in, certifying_denominator_in, certifying_numerators_in};
ghost use Rattle.check_conditions.specs.Held.{system_of, denominator_of, numerators_of};
ghost use Rattle.check_conditions.specs.Held.{certifying_denominator_of, certifying_numerators_of};
ghost use Rattle.check_conditions.specs.Table.{try_monic, row_wrong, try_rows, try_columns, try_denominators};

use crate::areas::SolutionAreas;
use crate::dimensions::Dimensions;
use crate::first::refuse_first;
use crate::matrix::side;
use crate::walk::{REMAINDERS, leaves_remainder, walk_columns};
use answers::{Reason, Refusal};
use division::{gcd, quotient};
use loader::width::CERTIFICATE_WIDTH;
use loader::{coefficients_in, polynomial_in};

// Tells whether polynomial k of the certificate is monic.
fn is_monic_at(certificate: &[u64], k: usize) -> bool
    requires { (k * certificate_width + certificate_width ≤ length certificate.now)
        × (get_or certificate.now (k * certificate_width) 0 < certificate_width) }
    ensures { (p : ℕ) → result ≡ monic? p (slot certificate_width certificate.now k) }
{
    coefficients_in(certificate, CERTIFICATE_WIDTH, k).last() == Some(&1)
}

impl SolutionAreas<'_> {
    // Tries 31: d (place 0, tried first) or w (place 1) not monic.
    fn try_monic(&self) -> Result<(), Refusal>
        ensures { verdict_outcome result ≡
            try_monic self.now.dimensions.modulus.p (denominator_of self.now) (certifying_denominator_of self.now) }
    {
        if !is_monic_at(self.certificate, 0) {
            return Err(Refusal {
                reason: Reason::NotMonic,
                place: 0,
            });
        }
        if !is_monic_at(self.certificate, self.dimensions.columns + 1) {
            return Err(Refusal {
                reason: Reason::NotMonic,
                place: 1,
            });
        }
        Ok(())
    }

    // Tells whether A·N is not d·b in row i.
    fn row_wrong(&self, i: usize) -> bool
        requires { i < self.now.dimensions.rows }
        ensures { result ≡ row_wrong (system_of self.now) (denominator_of self.now) (numerators_of self.now) i }
    {
        !self.row(i).equal(self.target(i))
    }

    // Tries 32: A·N not d·b; first such row.
    fn try_rows(&self) -> Result<(), Refusal>
        ensures { verdict_outcome result ≡
            try_rows (system_of self.now) (denominator_of self.now) (numerators_of self.now) }
    {
        let rows = self.dimensions.rows;
        refuse_first(rows, Reason::NotASolution, |i| self.row_wrong(i))
    }

    // Tries 33: w does not divide Z·A; first such column. One walk down the columns leaves the remainders.
    fn try_columns(&self) -> Result<(), Refusal>
        requires { 0 < length (certifying_denominator_of self.now) }
        ensures { verdict_outcome result ≡
            try_columns (system_of self.now) (certifying_denominator_of self.now) (certifying_numerators_of self.now) }
    {
        let modulus = self.dimensions.modulus;
        let w = coefficients_in(
            self.certificate,
            CERTIFICATE_WIDTH,
            self.dimensions.columns + 1,
        );
        let e = w.len() - 1;
        let mut carried = [0; REMAINDERS];
        walk_columns(&mut carried, self);
        let columns = self.dimensions.columns;
        refuse_first(columns, Reason::ColumnNotDivisible, |j| {
            leaves_remainder(&carried, e, j, modulus)
        })
    }

    // Tries 34: the denominators differ: w divided by the greatest common divisor of w and Z·b, made monic, is not d.
    fn try_denominators(&self) -> Result<(), Refusal>
        requires { 0 < length (certifying_denominator_of self.now) }
        ensures { verdict_outcome result ≡
            try_denominators (system_of self.now) (denominator_of self.now) (certifying_denominator_of self.now)
            (certifying_numerators_of self.now) }
    {
        let columns = self.dimensions.columns;
        let modulus = self.dimensions.modulus;
        let w = polynomial_in(self.certificate, CERTIFICATE_WIDTH, columns + 1, modulus);
        let sum = side(self.system, self.certificate, columns + 2, self.dimensions);
        let common = gcd(w, sum, modulus);
        let certified = quotient(w, common, modulus).monic(modulus);
        let d = polynomial_in(self.certificate, CERTIFICATE_WIDTH, 0, modulus);
        if !certified.equal(d) {
            return Err(Refusal {
                reason: Reason::DenominatorsDiffer,
                place: 0,
            });
        }
        Ok(())
    }
}

// Tries 31 to 34, in this order.
pub fn check_solution(
    system: &[u64],
    certificate: &[u64],
    dimensions: Dimensions,
) -> Result<(), Refusal>
    requires { Loaded dimensions (dimensions.columns + 2 + dimensions.rows) system.now certificate.now }
    ensures { verdict_outcome result ≡
        solution_verdict (system_in_slots dimensions system.now)
        (denominator_in certificate.now) (numerators_in dimensions certificate.now)
        (certifying_denominator_in dimensions certificate.now)
        (certifying_numerators_in dimensions certificate.now) }
{
    let areas = SolutionAreas {
        system,
        certificate,
        dimensions,
    };
    areas.try_monic()?;
    areas.try_rows()?;
    areas.try_columns()?;
    areas.try_denominators()
}
