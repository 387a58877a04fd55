// Polynomials modulo a prime p by value, with room for the products that the check makes.
#![tactic(auto)]

pub mod equal;
pub mod linear;
pub mod making;
pub mod product;
pub mod value;

pub use value::Polynomial;
