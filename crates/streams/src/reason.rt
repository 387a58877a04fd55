// What standard error is told: lines, with the system's reason for what failed.
ghost use Rattle.std.specs.Prelude.{◌≤◌, length};

use std::io::{Cursor, Error, Write};

// The bytes of the longest reason.
const REASON_SPACE: usize = 256;

// Writes `bytes` to standard error, as far as it takes them: there is nowhere to say that it does not.
pub fn say<E: Write>(errors: &mut E, bytes: &[u8]) {
    let _ = errors.write_all(bytes);
}

// Returns how many bytes of a reason's text are said: of an error of the system those before its number, which stands behind them in
// brackets.
fn said_length(text: &[u8], reason: &Error) -> usize
    ensures { result ≤ length text.now }
{
    if reason.raw_os_error().is_none() {
        return text.len();
    }
    match text.iter().rposition(|byte| *byte == b'(') {
        Some(bracket) => bracket.saturating_sub(1),
        None => text.len(),
    }
}

// Says what failed, as the caller names it, and the reason, as a line.
pub fn fail<E: Write>(errors: &mut E, what: &[u8], reason: &Error) {
    let mut written = Cursor::new([0u8; REASON_SPACE]);
    let _ = write!(written, "{reason}");
    let end = REASON_SPACE.min(written.position() as usize);
    let text = written.into_inner();
    let n = said_length(&text[..end], reason);
    say(errors, what);
    say(errors, b": ");
    say(errors, &text[..n]);
    say(errors, b"\n");
}
