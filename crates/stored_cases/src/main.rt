// Tries the calls of the product on stored cases and prints a line for each. tests/reference/README.md has the form of the cases
// and of the lines, and the number of each call.
#![tactic(auto)]

mod arithmetic;
mod codes;
mod input;
mod lookups;
mod operand;
mod output;
mod polynomials;
mod reading;
mod solution;
mod writing;

use codes::{BothCall, BytesCall, Call, WordsCall};
use input::{CASES, Input, LIST_BYTES, WORDS, read_bytes, read_number, read_words};
use limits::{Office, Panel};
use output::{Output, line, verdict};
use reader::file::read_system_file;
use reader::system::read_system;
use reading::{describe, list};
use std::io;
use std::io::{BufReader, BufWriter, Write};
use verifier::check;
use verifier::panel::check_panel;

// Where cases are read and their lines printed.
#[derive(Drop)]
struct Runner {
    input: Input,
    output: Output,
}

impl Runner {
    // Reads which right side is meant, and checks.
    fn try_check(&mut self, system: &[u32], certificate: &[u32]) {
        let mut told = [0u32; 1];
        read_words(&mut self.input, &mut told);
        verdict(
            &mut self.output,
            check(system, certificate, told[0] as usize),
        );
    }

    // Reads what is asked for, and looks it up.
    fn try_lookup<'a>(&mut self, system: &'a [u32], certificate: &'a [u32]) {
        let mut asked = [0u32; 2];
        read_words(&mut self.input, &mut asked);
        lookups::answer(&mut self.output, system, certificate, asked);
    }

    // Tries a call on the words of a system and those of a certificate.
    fn try_both<'a>(&mut self, call: BothCall, system: &'a [u32], certificate: &'a [u32]) {
        match call {
            BothCall::Read => { reading::answer_certificate(&mut self.output, system, certificate) }
            BothCall::Check => self.try_check(system, certificate),
            BothCall::Lookup => self.try_lookup(system, certificate),
        }
    }

    // Reads a second list of words, and tries a call on both.
    fn with_second(&mut self, call: BothCall, first: &[u32]) {
        let mut second = [0u32; WORDS];
        let n = read_words(&mut self.input, &mut second);
        self.try_both(call, first, &second[..n]);
    }

    // Reads one list of words, and tries a call on it.
    fn with_words(&mut self, call: WordsCall) {
        let mut words = [0u32; WORDS];
        let n = read_words(&mut self.input, &mut words);
        let output = &mut self.output;
        match call {
            WordsCall::Arithmetic => arithmetic::answer(output, &words),
            WordsCall::Writer => writing::answer(output, &words),
            WordsCall::ReadForOffice => {
                describe(output, read_system(&words[..n], Office::limits()))
            }
            WordsCall::ReadForPanel => describe(output, read_system(&words[..n], Panel::limits())),
            WordsCall::Both(call) => self.with_second(call, &words[..n]),
        }
    }

    // Reads which right side is meant and how many bytes are lent, and solves.
    fn try_side(&mut self, system: &[u8]) {
        let mut told = [0u32; 2];
        read_words(&mut self.input, &mut told);
        solution::answer_side(&mut self.output, system, told[0] as usize, told[1] as usize);
    }

    // Reads a second list of bytes, and tries the panel's check on both.
    fn try_panel(&mut self, system: &[u8]) {
        let mut certificate = [0u8; LIST_BYTES];
        let n = read_bytes(&mut self.input, &mut certificate);
        verdict(&mut self.output, check_panel(system, &certificate[..n]));
    }

    // Tries a call on bytes. The heading of the cases that follow is printed.
    fn try_bytes(&mut self, call: BytesCall, bytes: &[u8]) {
        let output = &mut self.output;
        match call {
            BytesCall::Heading => line(output, bytes),
            BytesCall::Describe => describe(output, read_system_file(bytes)),
            BytesCall::List => list(output, read_system_file(bytes)),
            BytesCall::Report => solution::answer(output, bytes),
            BytesCall::SolveSide => self.try_side(bytes),
            BytesCall::CheckPanel => self.try_panel(bytes),
        }
    }

    // Reads one list of bytes, and tries a call on it.
    fn with_bytes(&mut self, call: BytesCall) {
        let mut bytes = [0u8; LIST_BYTES];
        let n = read_bytes(&mut self.input, &mut bytes);
        self.try_bytes(call, &bytes[..n]);
    }

    // Tries the next case; whether there was one.
    fn try_next(&mut self) -> bool {
        match Call::try_from(read_number(&mut self.input)) {
            Ok(Call::Words(call)) => self.with_words(call),
            Ok(Call::Bytes(call)) => self.with_bytes(call),
            Err(_) => return false,
        }
        true
    }
}

fn main(rt: HostRuntime) -> io::Result<()> {
    let input = BufReader::new(rt.alloc(), rt.stdin())?;
    let output = BufWriter::new(rt.alloc(), rt.stdout())?;
    let mut runner = Runner { input, output };
    for _ in 0..CASES {
        if !runner.try_next() {
            break;
        }
    }
    runner.output.flush()
}
