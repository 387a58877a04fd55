// The second system of a level with short rows (section 2, step 5, of docs/mathematics.md): slots are reduced by one another and
// tails modulo d (slot), all of them, so that they are in Popov form, and the second system is solved: solve_short (popov).
#![tactic(auto)]

pub mod popov;
pub mod slot;

pub use popov::solve_short;
