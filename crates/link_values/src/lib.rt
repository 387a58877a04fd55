// Calls on files and values for programs in other languages: each gives one number: 64 times a count or a value, or a
// refusal (`answers::packed`). `link` exports them.
#![tactic(auto)]

pub mod kind;
pub mod lookup_file;
pub mod shape;
pub mod writing;
