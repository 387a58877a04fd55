// cardcheck SHEET CARD [SIDE]: prints on standard output whether the card (a certificate) in the one file is accepted for right
// side SIDE, 0 where it is not given, of the sheet (a system) in the other, or the number and the place of the refusal, and nothing
// else. Where there is no verdict, says why on standard error.
#![tactic(auto)]

mod file;
mod line;
mod name;

use file::read_file;
use line::judge;
use report_text::SPACE;
use std::env::Env;
use std::io::{Error, Write};
use std::rt::Files;
use streams::side::{ARGUMENT_SPACE, has_argument, side_asked};
use streams::{FILE_SPACE, fail, print, say};

// What the system says of a name that is too long: `File name too long`.
const ENAMETOOLONG: i32 = 36;

// Reads the file that an argument names. Returns its length, or nothing where it could not be read, which standard error says. Where
// the name has more than 4,096 bytes, says so of `what`.
fn read_named<R: Env + Files, E: Write>(
    rt: &R,
    errors: &mut E,
    bytes: &mut [u8],
    argument: usize,
    what: &[u8],
) -> Option<usize> {
    let mut name = [0u8; ARGUMENT_SPACE];
    match rt.arg(argument, &mut name) {
        Ok(n) => read_file(rt, errors, bytes, &mut name[..n]),
        Err(_) => {
            fail(errors, what, &Error::from_raw_os_error(ENAMETOOLONG));
            None
        }
    }
}

// Says how the program is used.
fn tell_usage<E: Write>(errors: &mut E) {
    say(
        errors,
        b"usage: cardcheck SHEET CARD [SIDE] (SIDE: a right side's number, from 0)\n",
    );
}

fn main(rt: HostRuntime) {
    let mut errors = rt.stderr();
    if !has_argument(&rt, 2) || has_argument(&rt, 4) {
        tell_usage(&mut errors);
        return;
    }
    let asked = side_asked(&rt, 3);
    let Some(side) = asked else {
        tell_usage(&mut errors);
        return;
    };
    let mut system = [0u8; FILE_SPACE];
    let first = read_named(&rt, &mut errors, &mut system, 1, b"cardcheck: SHEET");
    let Some(n) = first else {
        return;
    };
    let mut certificate = [0u8; FILE_SPACE];
    let second = read_named(&rt, &mut errors, &mut certificate, 2, b"cardcheck: CARD");
    let Some(m) = second else {
        return;
    };
    let mut line = [0u8; SPACE];
    let count = judge(&mut line, &system, &certificate, n, m, side);
    print(
        &mut rt.stdout(),
        &mut errors,
        &line[0..count],
        b"cardcheck: standard output",
    );
}
