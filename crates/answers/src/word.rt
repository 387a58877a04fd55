// Parts of a word.

// A payload has 28 bits: it is less than this.
pub const PAYLOAD_BOUND: u32 = 268435456;

// The words of each kind whose payload is 0.
pub const SYSTEM_HEAD: u32 = PAYLOAD_BOUND;

pub const START: u32 = 2 * PAYLOAD_BOUND;

pub const COEFFICIENT: u32 = 3 * PAYLOAD_BOUND;

pub const END: u32 = 4 * PAYLOAD_BOUND;

pub const CERTIFICATE_HEAD: u32 = 5 * PAYLOAD_BOUND;

// Bytes of a word in a file.
pub const WORD_BYTES: usize = 4;
