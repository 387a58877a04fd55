// The lookup of one polynomial of a system or of a certificate (document 01, end of "Turned back"). `lookup_part` says where it
// stands, `lookup` returns that part of the lent words, and its companion `lookup_refusal` says why there is none.
#![tactic(auto)]

pub mod part;

ghost use Rattle.std.specs.Prelude.{◌≡◌};
ghost use Rattle.limits.specs.Value.{limits_of};
ghost use Rattle.lookup.specs.Lookup.{on, polynomial_lookup, Borrows, companion, bounds_shown};
ghost use Rattle.answers.specs.Answer.{verdict_outcome};
ghost use Rattle.lookup.specs.Answer.{of_asked, part_outcome};

use crate::part::part_of;
pub use answers::Of;
use answers::Refusal;
use limits::Limits;
use reader::certificate::read_certificate;
use reader::system::read_system;

// Borrows the words of the one that is asked for.
fn words_on<'a>(of: Of, system: &'a [u32], certificate: &'a [u32]) -> &'a [u32]
    ensures { (result.now ≡ on (of_asked of) system.now certificate.now)
        × (result.ref_ptr ≡ on (of_asked of) system.entry.ref_ptr certificate.entry.ref_ptr) }
{
    match of {
        Of::System => system,
        Of::Certificate => certificate,
    }
}

// Finds where polynomial `number` of the one that is asked for stands, from its start word up to behind its last coefficient. Both
// are read first.
pub fn lookup_part(
    system: &[u32],
    certificate: &[u32],
    of: Of,
    number: usize,
    limits: Limits,
) -> Result<(usize, usize), Refusal>
    ensures { part_outcome result ≡
        bounds_shown
        (polynomial_lookup (limits_of limits) system.now certificate.now (of_asked of) number) }
{
    let head = read_system(system, limits)?;
    read_certificate(certificate, head.shape, limits)?;
    part_of(words_on(of, system, certificate), number)
}

// Borrows the part that `lookup_part` tells of the lent words: the words of that polynomial; empty on a refusal.
pub fn lookup<'a>(
    system: &'a [u32],
    certificate: &'a [u32],
    of: Of,
    number: usize,
    limits: Limits,
) -> &'a [u32]
    ensures { Borrows
        (polynomial_lookup (limits_of limits) system.now certificate.now (of_asked of) number)
        (on (of_asked of) system.entry.ref_ptr certificate.entry.ref_ptr) result.ref_ptr result.now }
{
    let words = words_on(of, system, certificate);
    match lookup_part(system, certificate, of, number, limits) {
        Ok((from, to)) => &words[from..to],
        Err(_) => &words[..0],
    }
}

// Tells whether `lookup` shows a polynomial, or the number and the place of its refusal.
pub fn lookup_refusal(
    system: &[u32],
    certificate: &[u32],
    of: Of,
    number: usize,
    limits: Limits,
) -> Result<(), Refusal>
    ensures { verdict_outcome result ≡
        companion (polynomial_lookup (limits_of limits) system.now certificate.now (of_asked of) number) }
{
    lookup_part(system, certificate, of, number, limits)?;
    Ok(())
}
