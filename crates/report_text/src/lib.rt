// The report, written into lent bytes (document 01, "The report"; its third line by document 02, item 2): of a solution, of none,
// and of a refusal. And the line of a verdict.
#![tactic(auto)]

ghost use Rattle.std.specs.Prelude.{◌≤◌, length};
ghost use Rattle.words.specs.Limits.{office};
ghost use Rattle.words.specs.Outcome.Outcome.{accepted};
ghost use Rattle.answers.specs.Answer.{refused_by, verdict_outcome};
ghost use Rattle.truth.specs.Solution.Answer.{none, least};
ghost use Rattle.report_text.specs.Text.{report_text};
ghost use Rattle.report_text.specs.Longest.{DenominatorWithin, report_space};
ghost use Rattle.report_text.specs.Verdict.{verdict_line};
ghost use Rattle.report_text.specs.Written.{Written};

use crate::line::{append_denominator, append_feedback};
use crate::text::Text;
use answers::Refusal;

mod line;
mod text;

// The bytes to lend: no report has more.
pub const SPACE: usize = 1024;

// Writes a solution's report, from the coefficients of its denominator d, lowest first. Returns the number of its bytes.
pub fn write_solution(out: &mut [u8], d: &[u64]) -> usize
    requires { DenominatorWithin office d.now × (report_space ≤ length out.old) }
    ensures { Written (report_text (accepted (least d.now))) out.old out.new result }
{
    let mut text = Text::new(out);
    text.append(b"answer solution\n");
    append_denominator(&mut text, d);
    append_feedback(&mut text, d);
    text.length
}

// Writes the report that there is no solution. Returns the number of its bytes.
pub fn write_none(out: &mut [u8]) -> usize
    requires { report_space ≤ length out.old }
    ensures { Written (report_text (accepted none)) out.old out.new result }
{
    let mut text = Text::new(out);
    text.append(b"answer none\n");
    text.length
}

// Writes the report of a refusal. Returns the number of its bytes.
pub fn write_refusal(out: &mut [u8], refusal: Refusal) -> usize
    requires { report_space ≤ length out.old }
    ensures { Written (report_text (refused_by refusal)) out.old out.new result }
{
    let number = refusal.reason.number();
    let mut text = Text::new(out);
    text.append_labelled(b"refused", number as u64);
    text.append_labelled(b" at", refusal.place as u64);
    text.append(b"\n");
    text.length
}

// Writes the line of a verdict. Returns the number of its bytes.
pub fn write_verdict(out: &mut [u8], verdict: Result<(), Refusal>) -> usize
    requires { report_space ≤ length out.old }
    ensures { Written (verdict_line (verdict_outcome verdict)) out.old out.new result }
{
    match verdict {
        Ok(()) => {
            let mut text = Text::new(out);
            text.append(b"accepted\n");
            text.length
        }
        Err(refusal) => write_refusal(out, refusal),
    }
}
