// The check on areas of slots, a system's and a certificate's: the sums of products A·N, d·b, Z·b, q·A and q·b (document 01, "The
// system"), the walk down Z·A modulo w, and the conditions 31 to 36 on them ("Turned back"). `solution` and `absence` have a
// function for each row of the table.
#![tactic(auto)]

pub mod absence;
pub mod areas;
pub mod dimensions;
mod first;
pub mod matrix;
pub mod solution;
pub mod sum;
mod walk;
