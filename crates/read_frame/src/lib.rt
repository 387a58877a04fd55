// Readers of what systems and certificates have in common (document 01, "Words" and "Turned back"): polynomials in a row, and the
// frame of a head and an end around them. `frame::read_body` reads all that stands behind a head.
#![tactic(auto)]

pub mod frame;
pub mod polynomial;
pub mod word;
