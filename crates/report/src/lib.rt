// The report (document 01, "The report"; document 02, items 1 and 2): from the bytes of a system's file to those of the text. It
// uses the first right side.
#![tactic(auto)]

ghost use Rattle.std.specs.Prelude.{◌≡◌, ◌≤◌, length, IfOk, IfErr};
ghost use Rattle.words.specs.Limits.{office};
ghost use Rattle.words.specs.Systems.{read_line};
ghost use Rattle.words.specs.Bytes.{read_line_file};
ghost use Rattle.answers.specs.Answer.{refused_by, shape_of};
ghost use Rattle.report_text.specs.Longest.{report_space};
ghost use Rattle.solver.specs.Certified.{Read};
ghost use Rattle.report.specs.Reporting.{ReportGiven, ReportsFile};

use answers::{Refusal, Shape};
use files::opening::open_file;
use limits::Office;
use reader::line::read_line;
pub use report_text::SPACE;
use report_text::{write_none, write_refusal, write_solution};
use solve_lattice::OUTPUT;
use solver::certifying::certify_words;
use writer::output::size_of;

// Writes the report of a first line that was read. Returns the number of its bytes.
fn report_read(out: &mut [u8], system: &[u32], shape: Shape) -> usize
    requires { Read (shape_of shape) 0 system.now × (report_space ≤ length out.old) }
    ensures { ReportGiven (read_line office 0 system.now) out.old out.new result }
{
    let mut output = [0u64; OUTPUT];
    if certify_words(&mut output, system, shape, 0) {
        // the first polynomial is d
        let size = size_of(&output, 0);
        write_solution(out, &output[..size])
    } else {
        write_none(out)
    }
}

// Writes the report of the first line of a file, and returns the number of its bytes. Where there is a refusal, writes nothing.
fn report_line(out: &mut [u8], file: &[u8]) -> Result<usize, Refusal>
    requires { report_space ≤ length out.old }
    ensures ok { IfOk result (λ count. ReportGiven (read_line_file office 0 file.now) out.old out.new count) }
    ensures err { IfErr result (λ refusal. (read_line_file office 0 file.now ≡ refused_by refusal) × (out.new ≡ out.old)) }
{
    let mut words = [0u32; Office::SYSTEM_WORDS];
    let count = open_file(&mut words, file, Office::SYSTEM_BYTES)?;
    let system = &words[..count];
    let shape = read_line(system, 0, Office::limits())?;
    Ok(report_read(out, system, shape))
}

// Writes the report of a system's file over the first of the lent bytes. Returns the number of its bytes. Where fewer than `SPACE`
// are lent, writes nothing and returns 0.
pub fn write_report(out: &mut [u8], file: &[u8]) -> usize
    ensures { ReportsFile office file.now out.old out.new result }
{
    if out.len() < SPACE {
        return 0;
    }
    match report_line(out, file) {
        Ok(count) => count,
        Err(refusal) => write_refusal(out, refusal),
    }
}
