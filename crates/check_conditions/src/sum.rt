// Sums of products of a system's polynomials with a certificate's. They stay unreduced until the last product is added.
ghost use Rattle.std.specs.Prelude.{ℕ, ◌+◌, ◌*◌, ◌≤◌, ◌<◌};
ghost use Rattle.polynomial.specs.Value.{Represents};
ghost use Rattle.truth.specs.Solution.{total_modulo};
ghost use Rattle.loader.specs.Slot.{SlotFilled};
ghost use Rattle.loader.specs.Widths.{system_width, certificate_width};
ghost use Rattle.check_conditions.specs.Products.{product, longest_sum};

use limits::Office;
use loader::coefficients_in;
use loader::width::{CERTIFICATE_WIDTH, SYSTEM_WIDTH};
use polynomial::Polynomial;
use polynomial::value::zeros;
use polynomial_words::add_rows;
use residue::modulus::Modulus;

// The most coefficients of a product.
const LONGEST: usize = Office::COEFFICIENTS as usize + Office::CERTIFICATE_COEFFICIENTS as usize
    - 1;

// Returns f_0 g_0 + f_1 g_1 + .., `count` products. The f stand in every `step`-th slot of `system` from `first` on, the g in the
// slots of `certificate` from `start` on.
pub fn sum_of_products(
    system: &[u64],
    first: usize,
    step: usize,
    certificate: &[u64],
    start: usize,
    count: usize,
    modulus: Modulus,
) -> Polynomial
    requires bounds { (count ≤ longest_sum) }
    requires system { (k : ℕ) → k < count → SlotFilled modulus.p system_width system.now (first + k * step) }
    requires certificate { (k : ℕ) → k < count → SlotFilled modulus.p certificate_width certificate.now (start + k) }
    ensures { Represents modulus.p result
        (total_modulo modulus.p count
        (product modulus.p system.now first step certificate.now start)) }
{
    let mut h = zeros();
    for k in 0..count {
        let f = coefficients_in(system, SYSTEM_WIDTH, first + k * step);
        let g = coefficients_in(certificate, CERTIFICATE_WIDTH, start + k);
        add_rows(&mut h, f, f.len(), g, g.len());
    }
    Polynomial::from_words(&h, 0, LONGEST, modulus)
}
