// The kind of the certificate in a file.
ghost use Rattle.std.specs.Prelude.{◌≡◌};
ghost use Rattle.words.specs.Limits.{office};
ghost use Rattle.answers.specs.Answer.{counted_outcome};
ghost use Rattle.answers.specs.Packed.{packed};
ghost use Rattle.link_values.specs.Files.{kind_of, read_both, file_kind};

use answers::Refusal;
use answers::packed::pack_counted;
use files::opening::{CERTIFICATE_SPACE, open_both};
use limits::Office;
use reader::certificate::read_certificate;
use reader::system::read_system;

// Reads the kind of a certificate for a system.
fn kind_of_words(system: &[u32], certificate: &[u32]) -> Result<usize, Refusal>
    ensures { counted_outcome result ≡ kind_of (read_both office system.now certificate.now) }
{
    let head = read_system(system, Office::limits())?;
    let form = read_certificate(certificate, head.shape, Office::limits())?;
    Ok(usize::from(form))
}

// Reads the kind of the certificate in a file, for the system in a file, or refuses.
fn read_kind(system: &[u8], certificate: &[u8]) -> Result<usize, Refusal>
    ensures { counted_outcome result ≡ file_kind office system.now certificate.now }
{
    let mut system_words = [0u32; Office::SYSTEM_WORDS];
    let mut certificate_words = [0u32; CERTIFICATE_SPACE];
    let (n, m) = open_both(
        &mut system_words,
        &mut certificate_words,
        system,
        certificate,
    )?;
    kind_of_words(&system_words[..n], &certificate_words[..m])
}

// Reads the kind of the certificate in a file, for the system in a file.
pub fn kind_of_files(system: &[u8], certificate: &[u8]) -> u64
    ensures { result ≡ packed (file_kind office system.now certificate.now) }
{
    pack_counted(read_kind(system, certificate))
}
