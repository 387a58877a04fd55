// The product for other programs, exported to C: from the bytes of files and from values to one number and what is lent. A slice is
// passed as a pointer and a count, an array as a pointer. The order of the parameters is that of the C header, include/yezsdolak.h.
#![tactic(auto)]

ghost use Rattle.std.specs.Prelude.{◌≡◌, length};
ghost use Rattle.words.specs.Limits.{office};
ghost use Rattle.answers.specs.Packed.{packed, packed_verdict};
ghost use Rattle.writer.specs.Values.{head_with, system_in_arrays};
ghost use Rattle.verifier.specs.File.{file_verdict, panel_verdict};
ghost use Rattle.answers.specs.Version.{version};
ghost use Rattle.link_values.specs.Files.{file_shape, file_kind, of_numbered, file_lookup, write_systems_file};
ghost use Rattle.link_values.specs.Giving.{GivesPacked};
ghost use Rattle.link.specs.Packed.{SolvesPacked, ReportsPacked};

use answers::packed::{PLACE_UNIT, pack_counted, pack_verdict};
use answers::version::library_version;
use limits::Office;
use link_values::kind::kind_of_files;
use link_values::lookup_file::{COEFFICIENTS, lookup_in_files};
use link_values::shape::shape_of_file;
use link_values::writing::write_system_file;
use report::write_report;
use solver::file::solve_file;
use verifier::file::check_files;
use verifier::panel::check_panel;
use writer::format::SYSTEM_VALUES;

// Returns the version of the library as one number.
#[unsafe(no_mangle)]
pub extern "C" fn yezsdolak_version() -> u64
    ensures { result ≡ version }
{
    library_version()
}

// Writes the file of the chosen certificate of a system, with right side `side`, counted from 0, over the first of the lent bytes.
// Returns the number of its bytes, or the refusal, as one number.
#[unsafe(no_mangle)]
pub extern "C" fn yezsdolak_solve(system: &[u8], side: u64, certificate: &mut [u8]) -> u64
    ensures { SolvesPacked office side system.now certificate.old certificate.new result }
{
    pack_counted(solve_file(certificate, system, side as usize))
}

// Tells whether a certificate's file is right for a system's, with right side `side`, counted from 0: returns 0, or the refusal as
// one number.
#[unsafe(no_mangle)]
pub extern "C" fn yezsdolak_check(system: &[u8], side: u64, certificate: &[u8]) -> u64
    ensures { result ≡ packed_verdict (file_verdict office side system.now certificate.now) }
{
    pack_verdict(check_files(system, certificate, side as usize))
}

// Tells whether a certificate is right for a system, where both keep the panel's limits: returns 0, or the refusal as one number.
// Both are buffers of bytes, of any length.
#[unsafe(no_mangle)]
pub extern "C" fn yezsdolak_panel_check(system: &[u8], certificate: &[u8]) -> u64
    ensures { result ≡ packed_verdict (panel_verdict system.now certificate.now) }
{
    pack_verdict(check_panel(system, certificate))
}

// Writes the report of a system's file, of its first right side, over the first of the lent bytes. Returns the number of its bytes
// as one number; 0, and nothing written, where fewer than 1,024 are lent.
#[unsafe(no_mangle)]
pub extern "C" fn yezsdolak_report(system: &[u8], text: &mut [u8]) -> u64
    ensures { ReportsPacked office system.now text.old text.new result }
{
    PLACE_UNIT * write_report(text, system) as u64
}

// Writes the file of a system over the first of the lent bytes. Returns the number of its bytes, or the refusal, as one number.
#[unsafe(no_mangle)]
pub extern "C" fn yezsdolak_write_system(
    modulus: u32,
    rows: u32,
    columns: u32,
    sides: u32,
    sizes: &[usize; Office::SYSTEM_POLYNOMIALS],
    coefficients: &[u64; SYSTEM_VALUES],
    system: &mut [u8],
) -> u64
    ensures { GivesPacked
        (write_systems_file office (length system.old)
        (system_in_arrays office (head_with modulus rows columns sides) sizes.now coefficients.now))
        system.old system.new result }
{
    write_system_file(system, sizes, coefficients, rows, columns, sides, modulus)
}

// Reads the modulus, the rows, the columns and the number of right sides of the system in a file. Returns them, or the refusal, as
// one number.
#[unsafe(no_mangle)]
pub extern "C" fn yezsdolak_shape(system: &[u8]) -> u64
    ensures { result ≡ packed (file_shape office system.now) }
{
    shape_of_file(system)
}

// Reads the kind of the certificate in a file, for the system in a file. Returns it, or the refusal, as one number.
#[unsafe(no_mangle)]
pub extern "C" fn yezsdolak_kind(system: &[u8], certificate: &[u8]) -> u64
    ensures { result ≡ packed (file_kind office system.now certificate.now) }
{
    kind_of_files(system, certificate)
}

// Writes the coefficients of a polynomial of the system in a file, where `of` is 0, or else of the certificate in another over the
// first of the lent numbers. Returns how many there are, or the refusal, as one number.
#[unsafe(no_mangle)]
pub extern "C" fn yezsdolak_lookup(
    system: &[u8],
    certificate: &[u8],
    of: u64,
    number: u64,
    coefficients: &mut [u64; COEFFICIENTS],
) -> u64
    ensures { GivesPacked (file_lookup office system.now certificate.now (of_numbered of) number)
        coefficients.old coefficients.new result }
{
    lookup_in_files(coefficients, system, certificate, of, number)
}
