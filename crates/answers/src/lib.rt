// What calls answer, in the numbers and places of document 01's table, and what all layers share: a test on small numbers, and the
// parts of a word.
#![tactic(auto)]

pub mod answer;
pub mod head;
pub mod number;
pub mod other;
pub mod packed;
pub mod shape;
pub mod version;
pub mod word;

pub use answer::{Fault, Misread, Of, Reason, Refusal};
pub use other::OtherNumber;
pub use shape::{Form, Head, Shape};
