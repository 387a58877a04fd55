// Reading a system from a file.
ghost use Rattle.std.specs.Prelude.{◌≡◌};
ghost use Rattle.words.specs.Limits.{office};
ghost use Rattle.words.specs.Outcome.{mapped};
ghost use Rattle.words.specs.Systems.{systems_head};
ghost use Rattle.words.specs.Bytes.{read_systems_file};
ghost use Rattle.answers.specs.Answer.{system_outcome};

use crate::system::read_system;
use answers::{Head, Refusal};
use files::opening::open_file;
use limits::Office;

// Reads the system in a file of the office.
pub fn read_system_file(bytes: &[u8]) -> Result<Head, Refusal>
    ensures { system_outcome result ≡ mapped systems_head (read_systems_file office bytes.now) }
{
    let mut words = [0u32; Office::SYSTEM_WORDS];
    let count = open_file(&mut words, bytes, Office::SYSTEM_BYTES)?;
    read_system(&words[..count], Office::limits())
}
