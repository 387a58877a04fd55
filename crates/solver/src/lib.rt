// The solver: from the words of a system and the number of a right side to the words of that line's certificate, whichever kind
// there is.
#![tactic(auto)]

pub mod certifying;
pub mod file;

ghost use Rattle.std.specs.Prelude.{◌≡◌, ◌≤◌, length};
ghost use Rattle.words.specs.Limits.{office, longest_certificate};
ghost use Rattle.words.specs.Outcome.Outcome.{accepted};
ghost use Rattle.words.specs.System.{System};
ghost use Rattle.words.specs.Systems.{read_line};
ghost use Rattle.words.specs.Certificate as certificate;
ghost use Rattle.answers.specs.Answer.{counted_outcome, shape_of, form_of};
ghost use Rattle.solver.specs.Certified.{Read};
ghost use Rattle.solver.specs.Solving.{Gives, Solves};

use answers::{Form, Reason, Refusal, Shape};
use certifying::certify_words;
use limits::Office;
use reader::line::read_line;
use solve_lattice::OUTPUT;
use writer::output::write_output;

// Returns the form of the certificate.
#[tactic(auto, unfolding(words::specs::Certificate::form_when))]
fn form_for(solved: bool) -> Form
    ensures { form_of result ≡ certificate.form_when solved }
{
    if solved {
        Form::Solution
    } else {
        Form::Absence
    }
}

// Writes the chosen certificate of a line that was read over the first of the lent words. Returns the number of its words.
fn solve_read(words: &mut [u32], system: &[u32], shape: Shape, side: usize) -> usize
    requires { Read (shape_of shape) side system.now × (longest_certificate office ≤ length words.old) }
    ensures { (s : System) → read_line office side system.now ≡ accepted s
        → Gives office certificate.certificate_words s words.old words.new result }
{
    let mut output = [0u64; OUTPUT];
    let solved = certify_words(&mut output, system, shape, side);
    write_output(words, &output, form_for(solved), shape)
}

// Solves the line of right side `side`, counted from 0: writes its certificate over the first of the lent words. Returns the number
// of its words. Those behind it stand as before, and so do all where it refuses.
pub fn solve(words: &mut [u32], system: &[u32], side: usize) -> Result<usize, Refusal>
    ensures { Solves office side system.now words.old words.new (counted_outcome result) }
{
    let shape = read_line(system, side, Office::limits())?;
    if words.len() < Office::CERTIFICATE_WORDS {
        return Err(Refusal {
            reason: Reason::SpaceShort,
            place: 0,
        });
    }
    Ok(solve_read(words, system, shape, side))
}
