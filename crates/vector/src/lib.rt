// Loops on ranges of 64-bit words, in rows of eight where ranges are long.
#![tactic(auto)]

pub mod delay;
pub mod each;
pub mod leading;
pub mod multiple;
pub mod range;

// Eight words at once: what the loops on long ranges do in one turn.
pub mod or;
pub mod sum;

pub use delay::find_delay;
pub use each::store_each;
pub use leading::{Leading, find_leading, find_leading_near};
pub use multiple::add_scaled;
pub use range::{clear, copy, exchange, reduce_range};
