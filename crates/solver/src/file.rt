// The solver on the bytes of files, four to a word, lowest first.
ghost use Rattle.std.specs.Prelude.{length, ◌*◌};
ghost use Rattle.words.specs.Limits.{office, longest_certificate};
ghost use Rattle.words.specs.Systems.{read_line};
ghost use Rattle.words.specs.Bytes.{word_bytes};
ghost use Rattle.answers.specs.Answer.{counted_outcome};
ghost use Rattle.solver.specs.Solving.{with_room, certificate_bytes, SolvesOr, SolvesFile};

use crate::solve;
use answers::{Reason, Refusal};
use files::opening::open_file;
use files::writing::write_bytes;
use limits::Office;

// Solves a line of some words: writes its certificate over the first of the lent bytes. Returns the number of its bytes.
fn solve_to_bytes(bytes: &mut [u8], system: &[u32], side: usize) -> Result<usize, Refusal>
    ensures { SolvesOr office certificate_bytes
        (with_room (word_bytes * longest_certificate office) (length bytes.old)
        (read_line office side system.now))
        bytes.old bytes.new (counted_outcome result) }
{
    let mut words = [0u32; Office::CERTIFICATE_WORDS];
    let count = solve(&mut words, system, side)?;
    if bytes.len() < Office::CERTIFICATE_BYTES {
        return Err(Refusal {
            reason: Reason::SpaceShort,
            place: 0,
        });
    }
    Ok(write_bytes(bytes, &words[..count]))
}

// Solves the line of right side `side` of a file, counted from 0: writes its certificate's file over the first of the lent bytes.
// Returns the number of its bytes.
pub fn solve_file(bytes: &mut [u8], file: &[u8], side: usize) -> Result<usize, Refusal>
    ensures { SolvesFile office side file.now bytes.old bytes.new (counted_outcome result) }
{
    let mut system = [0u32; Office::SYSTEM_WORDS];
    let count = open_file(&mut system, file, Office::SYSTEM_BYTES)?;
    solve_to_bytes(bytes, &system[..count], side)
}
