// Reading a certificate for a system whose shape is known: the head, d, N, w, Z or else q, the end.
ghost use Rattle.std.specs.Prelude.{◌≡◌};
ghost use Rattle.words.specs.Outcome.{mapped};
ghost use Rattle.words.specs.Reading.{outcome_of};
ghost use Rattle.words.specs.Certificate.{certificate_form, certificate_head_from, entry_count, read_certificate};
ghost use Rattle.limits.specs.Value.{limits_of};
ghost use Rattle.answers.specs.Answer.{shape_of, form_of, certificate_outcome};

use answers::{Fault, Form, Of, Reason, Refusal, Shape};
use limits::Limits;
use read_frame::frame::read_body;
use read_frame::word::{kind_of, payload_of};

// Reads the head, which is the first word.
fn read_head(words: &[u32]) -> Result<Form, Refusal>
    ensures { certificate_outcome result ≡ outcome_of certificate_head_from words.now }
{
    let place = 0;
    let Some(&word) = words.first() else {
        return Err(Refusal {
            reason: Reason::Words(Of::Certificate, Fault::EndsEarly),
            place,
        });
    };
    let refusal = Refusal {
        reason: Reason::BadCertificateHead,
        place,
    };
    if kind_of(word) != 5 {
        return Err(refusal);
    }
    match payload_of(word) {
        1 => Ok(Form::Solution),
        2 => Ok(Form::Absence),
        _ => Err(refusal),
    }
}

// Returns the number of polynomials of a certificate.
pub fn entry_count(form: Form, shape: Shape) -> u32
    ensures { result ≡ entry_count (shape_of shape) (form_of form) }
{
    let rows = u32::from(shape.rows);
    let columns = u32::from(shape.columns);
    match form {
        Form::Solution => 1 + columns + 1 + rows,
        Form::Absence => rows,
    }
}

// Reads the whole certificate.
pub fn read_certificate(words: &[u32], shape: Shape, limits: Limits) -> Result<Form, Refusal>
    ensures { certificate_outcome result ≡
        mapped certificate_form (read_certificate (limits_of limits) (shape_of shape) words.now) }
{
    let form = read_head(words)?;
    let count = entry_count(form, shape);
    let body = read_body(words, shape.modulus, limits.certificate_coefficients, count);
    body.map_err(|misread| misread.of(Of::Certificate))?;
    Ok(form)
}
