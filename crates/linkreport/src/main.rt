// linkreport: reads a sheet (a system's file) from standard input and prints its report on standard output, and nothing else.
#![tactic(auto)]

ghost use Rattle.std.specs.Prelude.{◌≤◌, length};
ghost use Rattle.streams.specs.Reading.{ReadWithin};
ghost use Rattle.streams.specs.SystemSpace.{system_space};
ghost use Rattle.report_text.specs.Longest.{report_space};
ghost use Rattle.linkreport.specs.Printing.{Prints};

use report::{SPACE, write_report};
use std::io;
use streams::side::has_argument;
use streams::{SYSTEM_SPACE, print, read_input, say};

// Writes what is to be printed: the report of the bytes read, or nothing where they could not be read. Returns the number of its
// bytes.
fn reply(text: &mut [u8], file: &[u8], input: io::Result<usize>) -> usize
    requires { (report_space ≤ length text.old) × (system_space ≤ length file.now) × ReadWithin (length file.now) input }
    ensures { Prints input file.now text.old text.new result }
{
    match input {
        Ok(n) => write_report(text, &file[..n]),
        Err(_) => 0,
    }
}

fn main(rt: HostRuntime) {
    let mut errors = rt.stderr();
    if has_argument(&rt, 1) {
        say(&mut errors, b"usage: linkreport < SHEET\n");
        return;
    }
    let mut file = [0u8; SYSTEM_SPACE];
    let input = read_input(
        &mut rt.stdin(),
        &mut errors,
        &mut file,
        b"linkreport: standard input",
    );
    let mut text = [0u8; SPACE];
    let n = reply(&mut text, &file, input);
    print(
        &mut rt.stdout(),
        &mut errors,
        &text[0..n],
        b"linkreport: standard output",
    );
}
