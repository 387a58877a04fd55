// What every step is told of the areas.
ghost use Rattle.std.specs.Prelude.{◌≤◌};
ghost use Rattle.words.specs.Limits.{office};

use residue::modulus::Modulus;

#[derive(Clone, Copy)]
pub struct Dimensions {
    pub modulus: Modulus,
    pub rows: usize,
    pub columns: usize,
    pub ghost within: { (rows ≤ office.rows) × (columns ≤ office.columns) },
}
