// Words as the bytes of a file, four to a word, lowest first.
ghost use Rattle.std.specs.Prelude.{◌≡◌, ◌+◌, ◌/◌, ◌%◌, ◌≤◌, length, set};
ghost use Rattle.modular.specs.Bits.{bound8};
ghost use Rattle.words.specs.Bytes.{second_byte_unit, third_byte_unit, fourth_byte_unit, word_bytes};
ghost use Rattle.files.specs.FileBytes.{WritesBytes};

use answers::word::WORD_BYTES;

// Writes the four bytes of a word, from the place `at` on.
fn write_word(bytes: &mut [u8], at: usize, word: u32)
    requires { at + word_bytes ≤ length bytes.old }
    ensures { bytes.new ≡ set (set (set (set bytes.old at (word % bound8)) (at + 1)
        (word / second_byte_unit % bound8)) (at + 2) (word / third_byte_unit % bound8)) (at + 3) (word / fourth_byte_unit) }
{
    bytes[at..at + WORD_BYTES].copy_from_slice(&word.to_le_bytes());
}

// Writes the words as bytes over the first of those lent, as many words as there is room for. Returns the number of their bytes.
// The others stay.
pub fn write_bytes(bytes: &mut [u8], words: &[u32]) -> usize
    ensures { WritesBytes words.now bytes.old bytes.new result }
{
    let count = words.len().min(bytes.len() / WORD_BYTES);
    for i in 0..count {
        write_word(bytes, WORD_BYTES * i, words[i]);
    }
    WORD_BYTES * count
}
