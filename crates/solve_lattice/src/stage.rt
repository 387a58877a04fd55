// Where an ascent stands.
ghost use Rattle.std.specs.Prelude.{◌≡◌, ◌<◌, ◌≤◌};
ghost use Rattle.solve_lattice.specs.Room.{lanes};

use residue::modulus::Modulus;

// The stage of an ascent: a system of `rows` rows and `columns` columns modulo p, the first `column` of which are in the level.
#[derive(Clone, Copy)]
pub struct Stage {
    pub rows: usize,
    pub columns: usize,
    pub column: usize,
    pub modulus: Modulus,
    pub ghost within: { (rows ≤ lanes) × (columns ≤ lanes) },
}

impl Stage {
    ghost use Rattle.solve_lattice.specs.Stage.{next_stage};

    // Returns the stage with one more column in the level.
    pub fn next_column(mut self) -> Stage
        requires { self.column < self.columns }
        ensures { result ≡ next_stage self }
    {
        self.column += 1;
        self
    }
}
