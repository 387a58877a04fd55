// What is read from standard input: numbers, each as four bytes lowest first, and lists, each as its number of bytes and these
// bytes.
ghost use Rattle.std.specs.Prelude.{◌≡◌, cond, ℕ, ◌<◌, ◌≤◌, ltb, length, get_or};
ghost use Rattle.stored_cases.specs.Places.{case_words};

use files::unpacking::unpack;
use std::io::{BufReader, Read, Stdin};

// Standard input, behind a buffer.
pub type Input = BufReader<Stdin>;

// No stored set has more cases.
pub const CASES: usize = 65536;

// No list has more words.
pub const WORDS: usize = 16384;

// No list has more bytes.
pub const LIST_BYTES: usize = 65536;

// Gives the word at a place, 0 behind the last.
pub fn word(words: &[u32; WORDS], place: usize) -> u32
    ensures { result ≡ cond (ltb place case_words) (get_or words.now place 0) 0 }
{
    words.get(place).copied().unwrap_or(0)
}

// Gives the word at a place where it is below a bound, else 0.
pub fn word_below(words: &[u32; WORDS], place: usize, bound: u64) -> u64
    requires { 0 < bound }
    ensures { result < bound }
{
    let x = word(words, place) as u64;
    if x < bound { x } else { 0 }
}

// Gives the number of coefficients that the word at a place says; 0 where these are more than `most`.
pub fn size_at(words: &[u32; WORDS], place: usize, most: usize) -> usize
    ensures { result ≤ most }
{
    let n = word(words, place) as usize;
    if most < n { 0 } else { n }
}

// Fills f with the words from a place on, those below a bound.
pub fn unpack_coefficients(f: &mut [u64], words: &[u32; WORDS], place: usize, bound: u64)
    requires { (place ≤ case_words) × (length f.old ≤ case_words) × (0 < bound) }
    ensures { (i : ℕ) → i < length f.new → get_or f.new i 0 < bound }
{
    for i in 0..f.len() {
        f[i] = word_below(words, place + i, bound);
    }
}

// Reads until `bytes` are full, the input ends or a read fails, and returns how many bytes it put at their start.
fn read_full(input: &mut Input, bytes: &mut [u8]) -> usize
    ensures { result ≤ length bytes.new }
{
    // `read_exact` is no plainer: it does not tell how many bytes came before the end, and here a failed read is the end.
    let mut done: usize = 0;
    while done < bytes.len() {
        match input.read(&mut bytes[done..]) {
            Ok(0) | Err(_) => return done,
            Ok(more) => done += more,
        }
    }
    done
}

// Reads a number; 0 where the input has ended.
pub fn read_number(input: &mut Input) -> u32 {
    let mut bytes = [0u8; 4];
    read_full(input, &mut bytes);
    u32::from_le_bytes(bytes)
}

// Reads a list to the first of the lent bytes and gives their number; 0 where too few are lent.
pub fn read_bytes(input: &mut Input, bytes: &mut [u8]) -> usize
    ensures { result ≤ length bytes.new }
{
    let count = read_number(input) as usize;
    if bytes.len() < count {
        return 0;
    }
    read_full(input, &mut bytes[..count])
}

// Reads a list to the first of the lent words and gives their number.
pub fn read_words(input: &mut Input, words: &mut [u32]) -> usize
    ensures { result ≤ length words.new }
{
    let mut bytes = [0u8; LIST_BYTES];
    let count = read_bytes(input, &mut bytes);
    unpack(words, &bytes[..count])
}
