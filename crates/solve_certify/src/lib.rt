// The solver on memory, from a system to its certificate: up over the columns and down again (ascending; descending), and at the top
// the right side inserted and the second system solved (witness; insertion, solution, absence).
#![tactic(auto)]

pub mod absence;
pub mod ascending;
pub mod descending;
pub mod insertion;
pub mod solution;
pub mod witness;

ghost use Rattle.std.specs.Prelude.{◌≤◌};
ghost use Rattle.solve_lattice.specs.Room.{lanes};
ghost use Rattle.solve_lattice.specs.Input.{ValidInput};
ghost use Rattle.solve_lattice.specs.Output.{ValidOutput};
ghost use Rattle.solve_certify.specs.Certifies.{HasSystem, Certifies};

use crate::ascending::ascend;
use crate::witness::find_witness;
use residue::modulus::Modulus;
use solve_lattice::{Input, LEVEL, Output, PRODUCT, Stage};

// Stores the certificate of the system in `input`, of `rows` rows and `columns` columns, in `output`. Returns whether there is a
// solution.
pub fn certify(
    output: &mut Output,
    input: &Input,
    rows: usize,
    columns: usize,
    modulus: Modulus,
) -> bool
    requires bounds { (rows ≤ lanes) × (columns ≤ lanes) × ValidInput modulus.p input.now }
    requires system { HasSystem modulus.p rows columns input.now }
    requires area { ValidOutput modulus.p output.old }
    ensures { Certifies modulus.p rows columns input.now output.new result }
{
    let mut level = [0u64; LEVEL];
    let mut quotients = [0u64; PRODUCT];
    let stage = Stage {
        rows,
        columns,
        column: 0,
        modulus,
    };
    // no system that was read has 0 columns; but with this second call the compiler keeps `find_witness`, which has large arrays,
    // out of `ascend`, of which each column has one
    if columns == 0 {
        return find_witness(output, &mut quotients, &level, input, stage);
    }
    ascend(output, &mut quotients, &mut level, input, stage)
}
