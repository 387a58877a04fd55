// Limits that are kept beside those of reading: whether what was read by the office's exceeds them. Only the head and the start
// words of the polynomials are looked at.
ghost use Rattle.std.specs.Prelude.{◌≡◌};
ghost use Rattle.words.specs.Limits.{office};
ghost use Rattle.words.specs.Outcome.{mapped};
ghost use Rattle.words.specs.Outcome.Outcome.{accepted};
ghost use Rattle.words.specs.Systems.{systems_head, read_systems};
ghost use Rattle.words.specs.System.{ShapeWithin};
ghost use Rattle.words.specs.Certificate.{certificate_form, read_certificate};
ghost use Rattle.words.specs.Starts.{first_entries, HasEntries};
ghost use Rattle.words.specs.Kept.{longer?, systems_exceed, certificate_exceeds};
ghost use Rattle.limits.specs.Value.{limits_of};
ghost use Rattle.answers.specs.Answer.{shape_of, head_of, form_of};

use crate::certificate::entry_count;
use answers::{Form, Head, Shape};
use limits::Limits;
use read_frame::word::payload_of;

// Tells whether one of the first `count` polynomials has more than `most` coefficients.
fn some_longer(words: &[u32], count: usize, most: usize) -> bool
    requires { HasEntries office.certificate_coefficients count words.now }
    ensures { result ≡ longer? most (first_entries words.now count) }
{
    let mut place = 1;
    for _ in 0..count {
        let n = payload_of(words[place]) as usize;
        if most < n {
            return true;
        }
        place += n + 1;
    }
    false
}

// Tells whether a system that was read, with this head, exceeds a limit.
pub fn system_exceeds(words: &[u32], head: Head, kept: Limits) -> bool
    requires { accepted (head_of head) ≡ mapped systems_head (read_systems office words.now) }
    ensures { accepted result ≡ mapped (systems_exceed (limits_of kept)) (read_systems office words.now) }
{
    let shape = head.shape;
    if kept.rows < shape.rows || kept.columns < shape.columns || kept.sides < head.sides {
        return true;
    }
    let rows = usize::from(shape.rows);
    let count = rows * usize::from(shape.columns) + usize::from(head.sides) * rows;
    some_longer(words, count, usize::from(kept.coefficients))
}

// Tells whether a certificate that was read, of this form and for a system of this shape, exceeds a limit. The shape keeps the
// limits, so the number of the certificate's words follows and need not be looked at.
pub fn certificate_exceeds(words: &[u32], form: Form, shape: Shape, kept: Limits) -> bool
    requires form_value { accepted (form_of form) ≡ mapped certificate_form (read_certificate office (shape_of shape) words.now) }
    requires shape { ShapeWithin office (shape_of shape) × ShapeWithin (limits_of kept) (shape_of shape) }
    ensures { accepted result ≡
        mapped (certificate_exceeds (limits_of kept)) (read_certificate office (shape_of shape) words.now) }
{
    let count = entry_count(form, shape) as usize;
    some_longer(words, count, usize::from(kept.certificate_coefficients))
}
