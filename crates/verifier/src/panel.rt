// The panel's check (document 02, item 4), on two buffers of bytes. Both are read by the office's limits and must keep the panel's,
// so the areas have no more slots than these allow.
ghost use Rattle.std.specs.Prelude.{◌≡◌};
ghost use Rattle.answers.specs.Answer.{verdict_outcome};
ghost use Rattle.verifier.specs.File.{panel_verdict};

use crate::loading::check_bytes;
use answers::Refusal;
use limits::Panel;
use loader::width::{CERTIFICATE_WIDTH, SYSTEM_WIDTH};

// The most polynomials of a system with one right side, and of a certificate.
const SYSTEM_POLYNOMIALS: usize = Panel::ROWS as usize * (Panel::COLUMNS as usize + 1);

const CERTIFICATE_POLYNOMIALS: usize = Panel::COLUMNS as usize + 2 + Panel::ROWS as usize;

// The words of the areas for these.
const SYSTEM_AREA: usize = SYSTEM_POLYNOMIALS * SYSTEM_WIDTH;

const CERTIFICATE_AREA: usize = CERTIFICATE_POLYNOMIALS * CERTIFICATE_WIDTH;

// Tries number 10 on either buffer, which may have any length, then returns the verdict on their words for right side 0.
pub fn check_panel(system: &[u8], certificate: &[u8]) -> Result<(), Refusal>
    ensures { verdict_outcome result ≡ panel_verdict system.now certificate.now }
{
    check_bytes::<SYSTEM_AREA, CERTIFICATE_AREA>(
        system,
        certificate,
        0,
        Panel::limits(),
        system.len(),
    )
}
