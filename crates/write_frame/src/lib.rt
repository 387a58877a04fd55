// Polynomials in arrays: tried one after another (trial), and written between a head and an end over lent words (frame). What
// differs between a system and a certificate is a `format::Format`. All of it is inside the product: a `format::Polynomials` is made
// where it is known that the arrays have room.
#![tactic(auto)]

pub mod format;
pub mod frame;
pub mod trial;
