// A system and a certificate read by the office's limits, tried for the limits that are kept, and loaded into areas; then 31 to 36
// on the areas. The limits are a value, so the office and the panel have one code and one proof. The areas are lent: of as many
// slots as the kept limits allow, each as wide as the office's ask for.
ghost use Rattle.std.specs.Prelude.{◌≡◌, ◌^◌, ◌<◌};
ghost use Rattle.words.specs.Limits.{office};
ghost use Rattle.limits.specs.Value.{limits_of};
ghost use Rattle.answers.specs.Answer.{shape_of, head_of, form_of, verdict_outcome};
ghost use Rattle.reader.specs.BothRead.{BothLine};
ghost use Rattle.truth.specs.Verdict.{verdict};
ghost use Rattle.truth.specs.Within.{verdict_within, limits_verdict, both_read};
ghost use Rattle.verifier.specs.File.{bytes_verdict};
ghost use Rattle.verifier.specs.Loading.{BothSided, FindsBoth, AreaRoom, AreasFor, AreasOf, Ready, loading_verdict, Loads};

use answers::{Form, Head, Reason, Refusal, Shape};
use check_conditions::absence::check_absence;
use check_conditions::dimensions::Dimensions;
use check_conditions::solution::check_solution;
use files::opening::{CERTIFICATE_SPACE, SYSTEM_SPACE, open_within};
use limits::{Limits, Office};
use loader::width::{CERTIFICATE_WIDTH, LINE_POLYNOMIALS, SYSTEM_WIDTH};
use loader::{load, load_line};
use reader::certificate::{entry_count, read_certificate};
use reader::kept::{certificate_exceeds, system_exceeds};
use reader::line::read_sided;
use residue::modulus::Modulus;

// The words of the areas for all that the office reads.
pub const SYSTEM_AREA: usize = LINE_POLYNOMIALS * SYSTEM_WIDTH;

pub const CERTIFICATE_AREA: usize = Office::CERTIFICATE_POLYNOMIALS * CERTIFICATE_WIDTH;

// Reads the system, tries whether it has right side `side`, then reads the certificate.
fn read_both(system: &[u32], certificate: &[u32], side: usize) -> Result<(Head, Form), Refusal>
    ensures { FindsBoth side system.now certificate.now result }
{
    let head = read_sided(system, side, Office::limits())?;
    let form = read_certificate(certificate, head.shape, Office::limits())?;
    Ok((head, form))
}

// Tries 41 on what was read: the system (place 0, tried first) or the certificate (place 1) exceeds a limit.
fn try_limits(
    system: &[u32],
    certificate: &[u32],
    side: usize,
    head: Head,
    form: Form,
    kept: Limits,
) -> Result<(), Refusal>
    requires { BothSided side (head_of head) (form_of form) system.now certificate.now }
    ensures { verdict_outcome result ≡
        both_read office side system.now certificate.now (limits_verdict (limits_of kept)) }
{
    if system_exceeds(system, head, kept) {
        return Err(Refusal {
            reason: Reason::BeyondPanel,
            place: 0,
        });
    }
    if certificate_exceeds(certificate, form, head.shape, kept) {
        return Err(Refusal {
            reason: Reason::BeyondPanel,
            place: 1,
        });
    }
    Ok(())
}

// Loads A, right side `side` and a certificate that were read.
fn load_read(
    system_area: &mut [u64],
    certificate_area: &mut [u64],
    system: &[u32],
    certificate: &[u32],
    side: usize,
    shape: Shape,
    form: Form,
) -> Dimensions
    requires both_line { BothLine side (shape_of shape) (form_of form) system.now certificate.now }
    requires room { AreaRoom (shape_of shape) system_area.old certificate_area.old }
    ensures { Loads (verdict office side system.now certificate.now)
        system_area.new certificate_area.new (Ok (result, form)) }
{
    let rows = shape.rows as usize;
    let columns = shape.columns as usize;
    let modulus = Modulus::new(shape.modulus as u64);
    load_line(system_area, system, rows, columns, side);
    let count = entry_count(form, shape) as usize;
    load(certificate_area, CERTIFICATE_WIDTH, certificate, count);
    Dimensions {
        modulus,
        rows,
        columns,
    }
}

// Reads both, tries 41, and loads what keeps the limits, for right side `side`.
pub fn load_pair(
    system_area: &mut [u64],
    certificate_area: &mut [u64],
    system: &[u32],
    certificate: &[u32],
    side: usize,
    kept: Limits,
) -> Result<(Dimensions, Form), Refusal>
    requires { AreasFor (limits_of kept) system_area.old certificate_area.old }
    ensures { Loads (verdict_within office (limits_of kept) side system.now certificate.now)
        system_area.new certificate_area.new result }
{
    let (head, form) = read_both(system, certificate, side)?;
    try_limits(system, certificate, side, head, form, kept)?;
    let dimensions = load_read(
        system_area,
        certificate_area,
        system,
        certificate,
        side,
        head.shape,
        form,
    );
    Ok((dimensions, form))
}

// Tries number 10 on either file, on the system's also where it has more than `limit` bytes, then loads their words. These stand in
// memory of this call, which is free again when 31 to 36 are tried.
pub fn load_files(
    system_area: &mut [u64],
    certificate_area: &mut [u64],
    system: &[u8],
    certificate: &[u8],
    side: usize,
    kept: Limits,
    limit: usize,
) -> Result<(Dimensions, Form), Refusal>
    requires { AreasFor (limits_of kept) system_area.old certificate_area.old }
    ensures { Loads (bytes_verdict office (limits_of kept) limit side system.now certificate.now)
        system_area.new certificate_area.new result }
{
    let mut system_words = [0u32; SYSTEM_SPACE];
    let mut certificate_words = [0u32; CERTIFICATE_SPACE];
    let (n, m) = open_within(
        &mut system_words,
        &mut certificate_words,
        system,
        certificate,
        limit,
    )?;
    load_pair(
        system_area,
        certificate_area,
        &system_words[..n],
        &certificate_words[..m],
        side,
        kept,
    )
}

// Tries 31 to 36 on what was loaded, or returns the refusal.
pub fn conclude(
    system_area: &[u64],
    certificate_area: &[u64],
    loading: Result<(Dimensions, Form), Refusal>,
) -> Result<(), Refusal>
    requires { Ready loading system_area.now certificate_area.now }
    ensures { verdict_outcome result ≡
        loading_verdict loading system_area.now certificate_area.now }
{
    let (dimensions, form) = loading?;
    match form {
        Form::Solution => check_solution(system_area, certificate_area, dimensions),
        Form::Absence => check_absence(system_area, certificate_area, dimensions),
    }
}

// Returns the verdict on the words of two files, after number 10 of either, where what the office reads must keep these limits
// too. The areas have so many words; a system's file has at most `limit` bytes.
pub fn check_bytes<const SYSTEM: usize, const CERTIFICATE: usize>(
    system: &[u8],
    certificate: &[u8],
    side: usize,
    kept: Limits,
    limit: usize,
) -> Result<(), Refusal>
    requires areas { AreasOf (limits_of kept) SYSTEM CERTIFICATE }
    requires small { (SYSTEM < 2 ^ 32) × (CERTIFICATE < 2 ^ 32) }
    ensures { verdict_outcome result ≡
        bytes_verdict office (limits_of kept) limit side system.now certificate.now }
{
    let mut system_area = [0u64; SYSTEM];
    let mut certificate_area = [0u64; CERTIFICATE];
    let loading = load_files(
        &mut system_area,
        &mut certificate_area,
        system,
        certificate,
        side,
        kept,
        limit,
    );
    conclude(&system_area, &certificate_area, loading)
}
