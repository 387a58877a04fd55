// The chosen certificate in the output area, for a system that is laid out in the input area, or for a line of words that were
// read.
ghost use Rattle.std.specs.Prelude.{◌≡◌, length};
ghost use Rattle.vector.specs.Bound.{AtMost};
ghost use Rattle.words.specs.Limits.{office};
ghost use Rattle.words.specs.System.{ShapeWithin};
ghost use Rattle.words.specs.Systems.{read_line};
ghost use Rattle.solve_lattice.specs.Room.{output_words};
ghost use Rattle.solve_meaning.specs.SystemIn.{system_in_lanes, SystemArea};
ghost use Rattle.answers.specs.Answer.{shape_of};
ghost use Rattle.solver.specs.Certified.{HasShape, CertifiedOutput, CertifiedRead};

use answers::Shape;
use residue::modulus::Modulus;
use solve_certify::certify;
use solve_lattice::{INPUT, Input, Output};
use solve_layout::lay_line;

// Stores the chosen certificate of the system that is laid out in `input`, of that shape, in `output`, which is 0. Returns whether
// there is a solution.
pub fn certify_laid(output: &mut Output, input: &Input, shape: Shape) -> bool
    requires shape_within { ShapeWithin office (shape_of shape) × SystemArea (shape_of shape) input.now }
    requires cleared { (length output.old ≡ output_words) × AtMost 0 output.old }
    ensures { CertifiedOutput (system_in_lanes (shape_of shape) input.now) output.new result }
{
    let rows = shape.rows as usize;
    let columns = shape.columns as usize;
    let modulus = Modulus::new(shape.modulus as u64);
    certify(output, input, rows, columns, modulus)
}

// Stores the chosen certificate of the line of right side `side` of `system`, of that shape, in `output`, which is 0. Returns
// whether there is a solution.
pub fn certify_words(output: &mut Output, system: &[u32], shape: Shape, side: usize) -> bool
    requires has_shape { HasShape (shape_of shape) side system.now }
    requires cleared { (length output.old ≡ output_words) × AtMost 0 output.old }
    ensures { CertifiedRead (read_line office side system.now) output.new result }
{
    let mut input = [0u64; INPUT];
    lay_line(&mut input, system, shape, side);
    certify_laid(output, &input, shape)
}
