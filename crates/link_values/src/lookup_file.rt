// One polynomial of the system or of the certificate in two files.
ghost use Rattle.words.specs.Limits.{office};
ghost use Rattle.lookup.specs.Answer.{of_asked};
ghost use Rattle.answers.specs.Answer.{counted_outcome};
ghost use Rattle.link_values.specs.Files.{of_numbered, lookup_of, read_both, file_lookup};
ghost use Rattle.link_values.specs.Giving.{GivesList, GivesPacked};

use answers::Refusal;
use answers::packed::pack_counted;
use files::opening::{CERTIFICATE_SPACE, open_both};
use limits::Office;
use loader::copy_payloads;
use lookup::{Of, lookup, lookup_refusal};

// The most coefficients of a polynomial of a certificate.
pub const COEFFICIENTS: usize = Office::CERTIFICATE_COEFFICIENTS as usize;

// Writes the coefficients of polynomial `number` of the one that is asked for over the first of the lent numbers. Returns how many
// there are.
fn lookup_words<'a>(
    coefficients: &mut [u64; COEFFICIENTS],
    system: &'a [u32],
    certificate: &'a [u32],
    of: Of,
    number: usize,
) -> Result<usize, Refusal>
    ensures { GivesList (lookup_of (of_asked of) number (read_both office system.now certificate.now))
        coefficients.old coefficients.new (counted_outcome result) }
{
    let words = lookup(system, certificate, of, number, Office::limits());
    if words.is_empty() {
        lookup_refusal(system, certificate, of, number, Office::limits())?;
        return Ok(0);
    }
    let count = words.len() - 1;
    copy_payloads(coefficients, 0, words, 1, count);
    Ok(count)
}

// Writes the coefficients of a polynomial of the system in a file or of the certificate in another over the first of the lent
// numbers. Returns how many there are, or refuses.
fn write_coefficients(
    coefficients: &mut [u64; COEFFICIENTS],
    system: &[u8],
    certificate: &[u8],
    of: Of,
    number: usize,
) -> Result<usize, Refusal>
    ensures { GivesList (file_lookup office system.now certificate.now (of_asked of) number)
        coefficients.old coefficients.new (counted_outcome result) }
{
    let mut system_words = [0u32; Office::SYSTEM_WORDS];
    let mut certificate_words = [0u32; CERTIFICATE_SPACE];
    let (n, m) = open_both(
        &mut system_words,
        &mut certificate_words,
        system,
        certificate,
    )?;
    lookup_words(
        coefficients,
        &system_words[..n],
        &certificate_words[..m],
        of,
        number,
    )
}

// Looks up a polynomial of the system in a file or of the certificate in another, and writes its coefficients.
pub fn lookup_in_files(
    coefficients: &mut [u64; COEFFICIENTS],
    system: &[u8],
    certificate: &[u8],
    of: u64,
    number: u64,
) -> u64
    ensures { GivesPacked (file_lookup office system.now certificate.now (of_numbered of) number)
        coefficients.old coefficients.new result }
{
    pack_counted(write_coefficients(
        coefficients,
        system,
        certificate,
        Of::from(of),
        number as usize,
    ))
}
