// Files by their names. What is wrong with one is said on standard error.
ghost use Rattle.std.specs.Prelude.{◌≡◌};
ghost use Rattle.streams.specs.Reading.{ReadWithin};
ghost use Rattle.cardcheck.specs.End.{turn_bytes, end_told};

use crate::name::mask;
use std::io::{Error, ErrorKind, Read, Seek, SeekFrom, Write};
use std::rt::Files;
use std::{fs, io, str};
use streams::{fail, read_start, say};

// Why a file's length is not known.
#[derive(Clone, Copy)]
enum Unread {
    // The system turned it down or a read failed, for this reason.
    Failed(Error),
    // It has no end within `MOST` bytes.
    Endless,
}

impl From<Error> for Unread {
    fn from(reason: Error) -> Self {
        Unread::Failed(reason)
    }
}

// The most bytes that are read to find an end that the system does not tell, as that of a pipe.
const MOST: usize = 16777216;

// The bytes that one turn reads.
const TURN: usize = 65536;

// Returns the end that an answer of the system tells, where it is behind `count` bytes.
fn end_told(answer: io::Result<u64>, count: usize) -> Option<usize>
    ensures { result ≡ end_told answer count }
{
    let end = answer.ok()? as usize;
    (count < end).then_some(end)
}

// Reads up to `TURN` bytes more.
fn read_more<R: Read>(file: &mut R) -> io::Result<usize>
    ensures { ReadWithin turn_bytes result }
{
    let mut space = [0u8; TURN];
    read_start(&mut space, file)
}

// Reads on to the end, behind `count` bytes that were read. Returns the length of the file.
fn read_on<R: Read>(file: &mut R, count: usize) -> Result<usize, Unread> {
    let mut length = count;
    let mut last = TURN;
    while last == TURN && length <= MOST {
        last = read_more(file)?;
        length += last;
    }
    if length > MOST {
        return Err(Unread::Endless);
    }
    Ok(length)
}

// Finds the length of a file of which `count` bytes were read. The system tells that of a regular file; where it tells of no bytes
// behind these, reads on.
fn find_end<R: Read + Seek>(file: &mut R, count: usize) -> Result<usize, Unread> {
    match end_told(file.seek(SeekFrom::End(0)), count) {
        Some(end) => Ok(end),
        None => read_on(file, count),
    }
}

// Reads as much of a file as `bytes` have room for, and finds its length.
fn read_whole<R: Read + Seek>(bytes: &mut [u8], file: &mut R) -> Result<usize, Unread> {
    let count = read_start(bytes, file)?;
    if count < bytes.len() {
        return Ok(count);
    }
    find_end(file, count)
}

// Opens the file of a name, which is text.
fn open<F: Files>(files: &F, name: &[u8]) -> io::Result<F::File> {
    match str::from_utf8(name) {
        Ok(name) => fs::open(files, name),
        Err(_) => Err(Error::new(ErrorKind::InvalidFilename, "The name is not UTF-8")),
    }
}

// Opens the file of a name, reads as much of it as `bytes` have room for, and finds its length.
fn read_opened<F: Files>(files: &F, bytes: &mut [u8], name: &[u8]) -> Result<usize, Unread> {
    let mut file = open(files, name)?;
    read_whole(bytes, &mut file)
}

// Says the system's reason why a file could not be read.
fn fail_of<E: Write>(errors: &mut E, name: &mut [u8], reason: &Error) {
    mask(name);
    say(errors, b"cardcheck: ");
    fail(errors, name, reason);
}

// Says that a file has no end within `MOST` bytes.
fn fail_endless<E: Write>(errors: &mut E, name: &mut [u8]) {
    mask(name);
    say(errors, b"cardcheck: ");
    say(errors, name);
    let _ = writeln!(errors, ": no end within {MOST} bytes");
}

// Reads the file of a name, which is masked where it is said. Returns its length, or nothing where it could not be read, which
// standard error says.
pub fn read_file<F: Files, E: Write>(
    files: &F,
    errors: &mut E,
    bytes: &mut [u8],
    name: &mut [u8],
) -> Option<usize> {
    match read_opened(files, bytes, name) {
        Ok(length) => Some(length),
        Err(unread) => {
            match unread {
                Unread::Failed(reason) => fail_of(errors, name, &reason),
                Unread::Endless => fail_endless(errors, name),
            }
            None
        }
    }
}
