// The next level: a column divided by a level's slots (divide_column), then put into an empty slot (fill_slot, empty_slot) or
// inserted into a copy of the level (next_level).
#![tactic(auto)]

pub mod beginning;
pub mod column;
pub mod copying;
pub mod divided;
pub mod next;
pub mod settling;
pub mod slot;

pub use divided::divide_column;
pub use next::{next_level, start_column};
pub use slot::{empty_slot, fill_slot};
