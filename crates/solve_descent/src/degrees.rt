// The quotients as a whole: behind which degree they are 0.
ghost use Rattle.std.specs.Prelude.{ℕ, ◌<◌, get_or};
ghost use Rattle.solve_descent.specs.Degrees.{FewDegrees};

use residue::modulus::Modulus;
use solve_lattice::{LANES, PRODUCT, Product};
use vector::find_leading;

// Returns a number of degrees behind which all quotients are 0.
pub fn count_degrees(quotients: &Product, modulus: Modulus) -> usize
    requires { (i : ℕ) → get_or quotients.now i 0 < modulus.p }
    ensures { FewDegrees modulus.p quotients.now result }
{
    let found = find_leading(quotients, PRODUCT, modulus);
    found.size.div_ceil(LANES)
}
