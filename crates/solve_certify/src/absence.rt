// Where there is no solution: the certificate of that.
ghost use Rattle.std.specs.Prelude.{◌<◌, ◌≤◌};
ghost use Rattle.solve_lattice.specs.Room.{lanes};
ghost use Rattle.solve_lattice.specs.Memory.{ValidLevel};
ghost use Rattle.solve_lattice.specs.Output.{ValidOutput};
ghost use Rattle.solve_certify.specs.Inserted.{HasStuck};
ghost use Rattle.solve_certify.specs.Absence.{AbsenceFound};

use residue::modulus::Modulus;
use solve_descent::negate;
use solve_lattice::{BLOCK, Level, Output};
use solve_second::{Side, solve_second};
use vector::copy;

// Stores q in `output`, from the last level, of n rows, into which the right side was inserted and got stuck at row h: minus the
// rows of the second system's solution, but for w at place h.
pub fn find_absence(output: &mut Output, level: &Level, n: usize, h: usize, modulus: Modulus)
    requires bounds { (n ≤ lanes) × (h < lanes) × ValidLevel modulus.p level.now }
    requires stuck { HasStuck modulus.p n level.now h }
    requires area { ValidOutput modulus.p output.old }
    ensures { AbsenceFound modulus.p n level.now h output.new }
{
    let mut w = [0u64; BLOCK];
    solve_second(&mut w, output, level, n, Side::Row(h), modulus);
    negate(output, BLOCK * n, modulus);
    copy(output, BLOCK * h, &w, 0, BLOCK);
}
