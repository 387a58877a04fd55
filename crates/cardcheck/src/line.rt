// The verdict on two files, as a line.
ghost use Rattle.std.specs.Prelude.{◌≤◌, length, take};
ghost use Rattle.words.specs.Limits.{office};
ghost use Rattle.verifier.specs.File.{file_verdict};
ghost use Rattle.report_text.specs.Longest.{report_space};
ghost use Rattle.report_text.specs.Verdict.{verdict_line};
ghost use Rattle.report_text.specs.Written.{Written};
ghost use Rattle.streams.specs.Seen.{file_space, bytes_seen};

use report_text::write_verdict;
use streams::bytes_seen;
use verifier::file::check_files;

// Writes the line of the verdict on two files, of which the starts and the lengths are given, for right side `side`. Returns its
// length. Not inlined: in `main` the arrays of the check would take stack while the files are read, too.
#[inline(never)]
pub fn judge(
    line: &mut [u8],
    system: &[u8],
    certificate: &[u8],
    n: usize,
    m: usize,
    side: usize,
) -> usize
    requires { (report_space ≤ length line.old) × (file_space ≤ length system.now) × (file_space ≤ length certificate.now) }
    ensures { Written
        (verdict_line
        (file_verdict office side (take (bytes_seen n) system.now) (take (bytes_seen m) certificate.now)))
        line.old line.new result }
{
    let n = bytes_seen(n);
    let m = bytes_seen(m);
    write_verdict(line, check_files(&system[..n], &certificate[..m], side))
}
