// The check (document 01, "Turned back") of a certificate for one right side: reads the system and tries whether it has that right
// side, then reads the certificate, then tries 41 where limits are kept beside the office's, then 31 to 36, which are in
// `check_conditions`. On files: `file::check_files`; on the panel: `panel::check_panel`.
#![tactic(auto)]

pub mod file;
mod loading;
pub mod panel;

ghost use Rattle.std.specs.Prelude.{◌≡◌};
ghost use Rattle.words.specs.Limits.{office};
ghost use Rattle.limits.specs.Value.{limits_of};
ghost use Rattle.answers.specs.Answer.{verdict_outcome};
ghost use Rattle.truth.specs.Verdict.{verdict};
ghost use Rattle.truth.specs.Within.{verdict_within};

pub use answers::Refusal;
use limits::{Limits, Office};
use loading::{CERTIFICATE_AREA, SYSTEM_AREA, conclude, load_pair};

// Returns the verdict where what the office reads must keep these limits too. The areas are laid out as in `loading::check_bytes`: one
// function for both would take the loading as a closure, with a clause on what it leaves in the areas, and be no plainer.
pub fn check_within(
    system: &[u32],
    certificate: &[u32],
    side: usize,
    kept: Limits,
) -> Result<(), Refusal>
    ensures { verdict_outcome result ≡
        verdict_within office (limits_of kept) side system.now certificate.now }
{
    let mut system_area = [0u64; SYSTEM_AREA];
    let mut certificate_area = [0u64; CERTIFICATE_AREA];
    let loading = load_pair(
        &mut system_area,
        &mut certificate_area,
        system,
        certificate,
        side,
        kept,
    );
    conclude(&system_area, &certificate_area, loading)
}

// Returns the verdict on the words of a system and of a certificate for its right side `side`, counted from 0.
pub fn check(system: &[u32], certificate: &[u32], side: usize) -> Result<(), Refusal>
    ensures { verdict_outcome result ≡ verdict office side system.now certificate.now }
{
    check_within(system, certificate, side, Office::limits())
}
