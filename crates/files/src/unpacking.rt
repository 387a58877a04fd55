// The words of a file's bytes, four bytes to a word, lowest first.
ghost use Rattle.std.specs.Prelude.{◌≡◌, ◌+◌, ◌≤◌, length};
ghost use Rattle.words.specs.Bytes.{word_at, word_bytes};
ghost use Rattle.files.specs.FileWords.{Unpacked};

use answers::word::WORD_BYTES;

// Reads the word that starts at byte `at`.
fn word_at(bytes: &[u8], at: usize) -> u32
    requires { at + word_bytes ≤ length bytes.now }
    ensures { result ≡ word_at bytes.now at }
{
    u32::from_le_bytes([bytes[at], bytes[at + 1], bytes[at + 2], bytes[at + 3]])
}

// Writes the words of `bytes` over the first of `words`, as many as there is room for. Returns their number. The others stay.
pub fn unpack(words: &mut [u32], bytes: &[u8]) -> usize
    ensures { Unpacked bytes.now words.old words.new result }
{
    let count = (bytes.len() / WORD_BYTES).min(words.len());
    for i in 0..count {
        words[i] = word_at(bytes, WORD_BYTES * i);
    }
    count
}
