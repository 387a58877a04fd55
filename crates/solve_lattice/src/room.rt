// Sizes of the areas that the solver works on, all of them arrays of words of 64 bits.
// They are fixed memory with places by constants: ValidLevel, HasStep and the theorems on them speak of flat words.

// Rows of a block, which stand side by side at each degree.
pub const LANES: usize = 8;
// The last lane, where row 0 stands: row i is in lane LAST_LANE - i.
pub const LAST_LANE: usize = LANES - 1;
// Degrees of a block.
pub const DEGREES: usize = 16;
// Degrees of a long block.
pub const PRODUCT_DEGREES: usize = 136;
// Coefficients of a polynomial of a certificate, and of a tail on the way, at most.
pub const COEFFICIENTS: usize = 121;
// Words of a block, and of a polynomial of the output.
pub const BLOCK: usize = DEGREES * LANES;
// Words of the tail of a hand.
pub const TAIL: usize = 256;
// Words of a slot: its block, then its tail.
pub const SLOT: usize = 2 * BLOCK;
// Where the sizes of the blocks begin in a level, behind its slots.
pub const SIZES: usize = LANES * SLOT;
// Where the sizes of the tails begin in a level.
pub const TAIL_SIZES: usize = SIZES + LANES;
// Where the inverses of the last words of the blocks begin in a level.
pub const INVERSES: usize = TAIL_SIZES + LANES;
// Words of a level.
pub const LEVEL: usize = INVERSES + LANES;
// Words of a long block: a block times a denominator, or quotients.
pub const PRODUCT: usize = PRODUCT_DEGREES * LANES;
// Words of 8 polynomials.
pub const ROWS: usize = LANES * BLOCK;
// Words of the input: a block for each of 8 columns, and one for the right side.
pub const INPUT: usize = (LANES + 1) * BLOCK;
// Words of the output: two polynomials, d and w, and one for each of 8 columns and 8 rows.
pub const OUTPUT: usize = (2 + 2 * LANES) * BLOCK;

pub type Level = [u64; LEVEL];

pub type Block = [u64; BLOCK];

pub type Tail = [u64; TAIL];

pub type Product = [u64; PRODUCT];

pub type Input = [u64; INPUT];

pub type Output = [u64; OUTPUT];
