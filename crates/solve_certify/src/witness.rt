// The right side b of a system inserted into its last level, and the second system: what makes a certificate right.
ghost use Rattle.vector.specs.Bound.{AtMost};
ghost use Rattle.solve_lattice.specs.Memory.{ValidLevel};
ghost use Rattle.solve_lattice.specs.Input.{ValidInput};
ghost use Rattle.solve_lattice.specs.Output.{ValidOutput};
ghost use Rattle.solve_certify.specs.Witnessed.{HasLast, Witnessed};

use crate::absence::find_absence;
use crate::insertion::insert_side;
use crate::solution::find_solution;
use solve_lattice::{Input, LEVEL, Level, Output, Product, Stage, TAIL, pivot_row};

// Finds what decides whether a system has a solution, from its last level. Where it has one: stores d, w and Z in `output` and the
// coefficients of d b in the blocks of `level` in `quotients`, which are 0; returns true. Where it has none: stores q in `output`
// and returns false.
pub fn find_witness(
    output: &mut Output,
    quotients: &mut Product,
    level: &Level,
    input: &Input,
    stage: Stage,
) -> bool
    requires input { ValidInput stage.modulus.p input.now }
    requires level { ValidLevel stage.modulus.p level.now }
    requires last { HasLast stage.modulus.p stage.rows stage.columns input.now level.now }
    requires areas { AtMost 0 quotients.old × ValidOutput stage.modulus.p output.old }
    ensures { Witnessed stage.modulus.p stage.rows stage.columns input.now level.now
        quotients.new output.new result }
{
    let rows = stage.rows;
    let columns = stage.columns;
    let modulus = stage.modulus;
    let mut next = [0u64; LEVEL];
    let mut tail = [0u64; TAIL];
    let size = insert_side(&mut next, &mut tail, level, input, columns, modulus);
    if size == 0 {
        find_solution(output, quotients, &mut next, level, &tail, input, stage);
        return true;
    }
    find_absence(output, level, rows, pivot_row(size), modulus);
    false
}
