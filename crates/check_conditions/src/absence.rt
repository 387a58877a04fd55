// 35 and 36: a certificate that holds q.
ghost use Rattle.std.specs.Prelude.{◌≡◌, ◌<◌};
ghost use Rattle.truth.specs.Verdict.{absence_verdict};
ghost use Rattle.answers.specs.Answer.{verdict_outcome};
ghost use Rattle.check_conditions.specs.Areas.{Loaded, system_in_slots, vector_in};
ghost use Rattle.check_conditions.specs.Held.{absent_system_of, kernel_of};
ghost use Rattle.check_conditions.specs.Table.{product_wrong, try_products, try_side};

use crate::areas::AbsenceAreas;
use crate::dimensions::Dimensions;
use crate::first::refuse_first;
use crate::matrix::side;
use answers::{Reason, Refusal};

impl AbsenceAreas<'_> {
    // Tells whether column j of q·A is not zero.
    fn product_wrong(&self, j: usize) -> bool
        requires { j < self.now.dimensions.columns }
        ensures { result ≡ product_wrong (absent_system_of self.now) (kernel_of self.now) j }
    {
        !self.column(j).is_zero()
    }

    // Tries 35: q·A not zero; first such column.
    fn try_products(&self) -> Result<(), Refusal>
        ensures { verdict_outcome result ≡ try_products (absent_system_of self.now) (kernel_of self.now) }
    {
        let columns = self.dimensions.columns;
        refuse_first(columns, Reason::NotAKernel, |j| self.product_wrong(j))
    }

    // Tries 36: q·b zero.
    fn try_side(&self) -> Result<(), Refusal>
        ensures { verdict_outcome result ≡ try_side (absent_system_of self.now) (kernel_of self.now) }
    {
        if side(self.system, self.certificate, 0, self.dimensions).is_zero() {
            return Err(Refusal {
                reason: Reason::NoContradiction,
                place: 0,
            });
        }
        Ok(())
    }
}

// Tries 35, then 36.
pub fn check_absence(
    system: &[u64],
    certificate: &[u64],
    dimensions: Dimensions,
) -> Result<(), Refusal>
    requires { Loaded dimensions dimensions.rows system.now certificate.now }
    ensures { verdict_outcome result ≡
        absence_verdict (system_in_slots dimensions system.now) (vector_in dimensions.rows 0 certificate.now) }
{
    let areas = AbsenceAreas {
        system,
        certificate,
        dimensions,
    };
    areas.try_products()?;
    areas.try_side()
}
