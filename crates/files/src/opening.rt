// Opening files: number 10, or their words over the first of the lent ones.
ghost use Rattle.std.specs.Prelude.{◌≡◌};
ghost use Rattle.words.specs.Limits.{office};
ghost use Rattle.answers.specs.Answer.{counted_outcome};
ghost use Rattle.files.specs.Opening.{turned_back, Opened};
ghost use Rattle.files.specs.OpeningBoth.{BothWithin, OpensBoth};

use crate::unpacking::unpack;
use answers::word::WORD_BYTES;
use answers::{Reason, Refusal};
use limits::Office;

// Number 10, at place 0.
const BAD_LENGTH: Refusal = Refusal {
    reason: Reason::BadFileLength,
    place: 0,
};

// Tells whether a file is turned back: where its bytes are not whole words or are more than `limit`.
fn turned_back(bytes: &[u8], limit: usize) -> bool
    ensures { result ≡ turned_back limit bytes.now }
{
    bytes.len() % WORD_BYTES != 0 || limit < bytes.len()
}

// Writes the words of a file over the first of `words`, as many as there is room for. Returns their number. Refuses with number 10
// where the bytes are not whole words or are more than `limit`; `words` then stay.
pub fn open_file(words: &mut [u32], bytes: &[u8], limit: usize) -> Result<usize, Refusal>
    ensures { Opened limit bytes.now words.old words.new (counted_outcome result) }
{
    if turned_back(bytes, limit) {
        return Err(BAD_LENGTH);
    }
    Ok(unpack(words, bytes))
}

// One word more than the longest system has, and than the longest certificate: among so many is the first word at fault of whatever
// is longer.
pub const SYSTEM_SPACE: usize = Office::SYSTEM_WORDS + 1;

pub const CERTIFICATE_SPACE: usize = Office::CERTIFICATE_WORDS + 1;

// Writes the words of a system's file and of a certificate's over the first of the lent ones, as many as there is room for. Refuses
// with number 10 either file that is not whole words, and a system's of more than `limit` bytes; all lent words then stay.
pub fn open_within(
    system_words: &mut [u32],
    certificate_words: &mut [u32],
    system: &[u8],
    certificate: &[u8],
    limit: usize,
) -> Result<(usize, usize), Refusal>
    ensures { BothWithin limit system.now certificate.now
        system_words.old certificate_words.old
        system_words.new certificate_words.new result }
{
    if turned_back(system, limit) || turned_back(certificate, certificate.len()) {
        return Err(BAD_LENGTH);
    }
    Ok((
        unpack(system_words, system),
        unpack(certificate_words, certificate),
    ))
}

// Writes the words of a system's file and of a certificate's over the first of the lent ones, as many as there is room for. Refuses
// with number 10 either file that is not whole words, and a system's that is too long; all lent words then stay.
pub fn open_both(
    system_words: &mut [u32],
    certificate_words: &mut [u32],
    system: &[u8],
    certificate: &[u8],
) -> Result<(usize, usize), Refusal>
    ensures { OpensBoth office system.now certificate.now
        system_words.old certificate_words.old
        system_words.new certificate_words.new result }
{
    open_within(
        system_words,
        certificate_words,
        system,
        certificate,
        Office::SYSTEM_BYTES,
    )
}
