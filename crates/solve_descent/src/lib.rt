// The way down from d·b to the numerators, a column a turn: descend_column for a column that was inserted, lower_quotients for one
// that filled an empty slot. Below both: products, lanes and negatives of words.
#![tactic(auto)]

pub mod blocks;
pub mod column;
pub mod coordinate;
pub mod degrees;
pub mod kernel;
pub mod lane;
pub mod lowering;
pub mod multiple;
pub mod negated;
pub mod product;
pub mod tails;
pub mod turn;

pub use kernel::reduce_by_kernel;
pub use lane::gather_lane;
pub use lowering::lower_quotients;
pub use negated::{negate, store_negated};
pub use product::{Terms, subtract_product};
pub use turn::descend_column;
