// The bytes of a file as words, and words as the bytes of a file, four bytes to a word, lowest first. The entries, for every
// input, are `opening::open_file`, `opening::open_both`, `unpacking::unpack` and `writing::write_bytes`.
#![tactic(auto)]

pub mod opening;
pub mod unpacking;
pub mod writing;
