// The check on the bytes of two files, four to a word, lowest first.
ghost use Rattle.std.specs.Prelude.{◌≡◌};
ghost use Rattle.words.specs.Limits.{office};
ghost use Rattle.answers.specs.Answer.{verdict_outcome};
ghost use Rattle.verifier.specs.File.{file_verdict};

use crate::loading::{CERTIFICATE_AREA, SYSTEM_AREA, check_bytes};
use answers::Refusal;
use limits::Office;

// Tries number 10 on either file, then returns the verdict on their words for right side `side`, counted from 0. A certificate's
// file may have any length.
pub fn check_files(system: &[u8], certificate: &[u8], side: usize) -> Result<(), Refusal>
    ensures { verdict_outcome result ≡ file_verdict office side system.now certificate.now }
{
    check_bytes::<SYSTEM_AREA, CERTIFICATE_AREA>(
        system,
        certificate,
        side,
        Office::limits(),
        Office::SYSTEM_BYTES,
    )
}
