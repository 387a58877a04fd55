// linksolve [SIDE]: reads a sheet (a system's file) from standard input and writes the card (a certificate's file) of its right
// side SIDE, 0 where there is no argument, to standard output, and nothing else. A refusal is a line on standard error.
#![tactic(auto)]

ghost use Rattle.std.specs.Prelude.{◌≤◌, length, ◌≡◌};
ghost use Rattle.streams.specs.Reading.{ReadWithin};
ghost use Rattle.streams.specs.SystemSpace.{system_space};
ghost use Rattle.streams.specs.Seen.{certificate_file_bytes};
ghost use Rattle.linksolve.specs.Replying.{Replies};
ghost use Rattle.linksolve.specs.declared.Unsolved.TheVariants.{Refused};

use answers::Refusal;
use limits::Office;
use report_text::{SPACE, write_refusal};
use solver::file::solve_file;
use std::io;
use std::io::{IsTerminal, Write};
use streams::side::{has_argument, side_asked};
use streams::{SYSTEM_SPACE, print, read_input, say};

// Why no certificate is handed on of a system.
#[derive(Clone, Copy)]
enum Unsolved {
    Refused(Refusal),
    // The system could not be read.
    Unread,
}

impl From<Refusal> for Unsolved {
    ghost from_gives = { λ refusal unsolved. unsolved ≡ Refused refusal };

    fn from(refusal: Refusal) -> Self {
        Unsolved::Refused(refusal)
    }
}

// Prints a refusal on standard error, as the report does. The line is written whole: `writeln!` would write each of its parts by
// itself.
fn refuse<E: Write>(errors: &mut E, refusal: Refusal) {
    let mut line = [0u8; SPACE];
    let n = write_refusal(&mut line, refusal);
    say(errors, &line[..n]);
}

// Writes a certificate to standard output, but to no terminal.
fn deliver<O: Write + IsTerminal, E: Write>(output: &mut O, errors: &mut E, certificate: &[u8]) {
    if output.is_terminal() {
        say(
            errors,
            b"linksolve: standard output is a terminal; write the card to a file: linksolve [SIDE] < SHEET > CARD\n",
        );
        return;
    }
    print(output, errors, certificate, b"linksolve: standard output");
}

// Solves a line of the system in the bytes read, and writes its certificate over the first of the lent bytes.
fn reply(
    certificate: &mut [u8],
    file: &[u8],
    input: io::Result<usize>,
    side: usize,
) -> Result<usize, Unsolved>
    requires { (certificate_file_bytes ≤ length certificate.old) × (system_space ≤ length file.now)
        × ReadWithin (length file.now) input }
    ensures { Replies side input file.now certificate.old certificate.new result }
{
    let Ok(n) = input else {
        return Err(Unsolved::Unread);
    };
    let count = solve_file(certificate, &file[..n], side)?;
    Ok(count)
}

// Says how the program is used.
fn tell_usage<E: Write>(errors: &mut E) {
    say(
        errors,
        b"usage: linksolve [SIDE] < SHEET > CARD (SIDE: a right side's number, from 0)\n",
    );
}

fn main(rt: HostRuntime) {
    let mut errors = rt.stderr();
    if has_argument(&rt, 2) {
        tell_usage(&mut errors);
        return;
    }
    let asked = side_asked(&rt, 1);
    let Some(side) = asked else {
        tell_usage(&mut errors);
        return;
    };
    let mut file = [0u8; SYSTEM_SPACE];
    let input = read_input(
        &mut rt.stdin(),
        &mut errors,
        &mut file,
        b"linksolve: standard input",
    );
    let mut certificate = [0u8; Office::CERTIFICATE_BYTES];
    let replied = reply(&mut certificate, &file, input, side);
    match replied {
        Ok(n) => deliver(&mut rt.stdout(), &mut errors, &certificate[0..n]),
        Err(Unsolved::Refused(refusal)) => refuse(&mut errors, refusal),
        Err(Unsolved::Unread) => {}
    }
}
