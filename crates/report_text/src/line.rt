// The lines of a solution's report that depend on its denominator d.
ghost use Rattle.modular.specs.Delay.{delay, feedback};
ghost use Rattle.report_text.specs.Text.{denominator_line, feedback_line};
ghost use Rattle.report_text.specs.Grown.{Room, Grown};

use crate::text::Text;
use vector::find_delay;

// Appends the second line: the coefficients of d, lowest first.
pub fn append_denominator(text: &mut Text<'_>, d: &[u64])
    requires { Room (denominator_line d.now) text.old }
    ensures { Grown (denominator_line d.now) text.old text.new }
{
    text.append(b"denominator");
    text.append_numbers(d);
    text.append(b"\n");
}

// Appends the third line: the degree of d without its factors x, and the number of these.
pub fn append_feedback(text: &mut Text<'_>, d: &[u64])
    requires { Room (feedback_line (feedback d.now) (delay d.now)) text.old }
    ensures { Grown (feedback_line (feedback d.now) (delay d.now)) text.old text.new }
{
    let delay = find_delay(d);
    let feedback = (d.len() - delay).saturating_sub(1);
    text.append_labelled(b"feedback", feedback as u64);
    text.append_labelled(b" delay", delay as u64);
    text.append(b"\n");
}
