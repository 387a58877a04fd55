// The bottom of the solver: how levels, input and output lie in memory (room), and the loops on them: insert, divide, reduce_words.
#![tactic(auto)]

pub mod division;
pub mod hand;
pub mod insertion;
pub mod moves;
pub mod pivot;
pub mod remainder;
pub mod room;
pub mod stage;
pub mod step;

pub use division::divide;
pub use hand::Hand;
pub use insertion::Insertion;
pub use pivot::pivot_row;
pub use remainder::reduce_words;
pub use room::{
    BLOCK, Block, COEFFICIENTS, DEGREES, INPUT, INVERSES, Input, LANES, LAST_LANE, LEVEL, Level,
    OUTPUT, Output, PRODUCT, PRODUCT_DEGREES, Product, ROWS, SIZES, SLOT, TAIL, TAIL_SIZES, Tail,
};
pub use stage::Stage;
