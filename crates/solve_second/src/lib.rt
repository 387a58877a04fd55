// The second system of a level (section 2, step 4, of docs/mathematics.md): laid out by lay_second, solved by solve_second; and the
// products that both systems use.
#![tactic(auto)]

pub mod denominator;
pub mod height;
pub mod lane;
pub mod layout;
pub mod monic;
pub mod product;
pub mod rows;
pub mod second_side;
pub mod solve;
pub mod transpose;

pub use height::slot_height;
pub use layout::lay_second;
pub use monic::make_monic;
pub use product::{multiply, multiply_block};
pub use second_side::Side;
pub use solve::solve_second;
