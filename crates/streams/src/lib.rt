// Standard input and standard output of the programs, and how much of a file they look at. What fails is said on standard error,
// with the system's reason. `side` reads the number of a right side.
#![tactic(auto)]

mod reason;
pub mod side;

ghost use Rattle.std.specs.Prelude.{◌≡◌, length, OnOk};
ghost use Rattle.std.specs.Io.KnownBytes.{Appends};
ghost use Rattle.streams.specs.Reading.{ReadWithin, ReadsStart};
ghost use Rattle.streams.specs.Seen.{bytes_seen};

use answers::word::WORD_BYTES;
use limits::Office;
pub use reason::{fail, say};
use std::io;
use std::io::{Read, Write};

// The bytes that are read of a sheet (a system's file): one more than the longest has. All that is longer is refused as these are.
pub const SYSTEM_SPACE: usize = Office::SYSTEM_BYTES + 1;

// Two words more than the longest certificate has: the room for the start of a file.
pub const FILE_SPACE: usize = WORD_BYTES * (Office::CERTIFICATE_WORDS + 2);

// Returns how many bytes of a file of so many are looked at: all, or, where they would fill the space, fewer, but as many modulo
// four.
pub fn bytes_seen(length: usize) -> usize
    ensures { result ≡ bytes_seen length }
{
    if length < FILE_SPACE {
        length
    } else {
        FILE_SPACE - WORD_BYTES + length % WORD_BYTES
    }
}

// Reads until `bytes` are full or the input ends. (The standard library's `read_exact` does not tell how many bytes came before the end.)
pub fn read_start<R: Read>(bytes: &mut [u8], input: &mut R) -> io::Result<usize>
    ensures within { ReadWithin (length bytes.new) result }
    ensures start { ReadsStart (R.remaining input.old) (R.remaining input.new) bytes.new result }
{
    let mut done: usize = 0;
    while done < bytes.len() {
        match input.read(&mut bytes[done..])? {
            0 => break,
            more => done += more,
        }
    }
    Ok(done)
}

// Reads the input until `bytes` are full or it ends. Where a read fails, says so of `what`.
pub fn read_input<R: Read, E: Write>(
    input: &mut R,
    errors: &mut E,
    bytes: &mut [u8],
    what: &[u8],
) -> io::Result<usize>
    ensures within { ReadWithin (length bytes.new) result }
    ensures start { ReadsStart (R.remaining input.old) (R.remaining input.new) bytes.new result }
{
    let start = read_start(bytes, input);
    if let Err(reason) = start {
        fail(errors, what, &reason);
    }
    start
}

// Hands `bytes` to the output, all of them.
fn hand_over<O: Write>(output: &mut O, bytes: &[u8]) -> io::Result<()>
    ensures { OnOk result (Appends (O.contents output.old) (O.contents output.new) bytes.now) }
{
    output.write_all(bytes)?;
    output.flush()
}

// Writes `bytes`, if there are any, to the output. Where that fails, says so of `what`.
pub fn print<O: Write, E: Write>(output: &mut O, errors: &mut E, bytes: &[u8], what: &[u8]) {
    if bytes.len() == 0 {
        return;
    }
    if let Err(reason) = hand_over(output, bytes) {
        fail(errors, what, &reason);
    }
}
