// Polynomials in ranges of words: compared, copied with their coefficients reduced, multiplied, divided, multiplied by x
// modulo another.
#![tactic(auto)]

pub mod compare;
pub mod division;
pub mod product;
pub mod residues;
pub mod shift;

pub use compare::same_words;
pub use division::divide_words;
pub use product::add_rows;
pub use residues::copy_polynomial;
pub use shift::multiply_by_x;
