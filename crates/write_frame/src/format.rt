// What differs between a system and a certificate as words, and the polynomials of either in arrays.
ghost use Rattle.write_frame.specs.Framing.{Covers};

use answers::Of;

// The head, the number of polynomials, how they lie in arrays, and the limits that they keep.
#[derive(Clone, Copy)]
pub struct Format {
    // The head word.
    pub head: u32,
    // How many polynomials there are, and the most coefficients of each.
    pub count: usize,
    pub limit: usize,
    // Polynomial k has its coefficients from the place `stride` * k on.
    pub stride: usize,
    // Of which of the two the polynomials are, as refusals say.
    pub of: Of,
    // The words of the longest form, which must be lent.
    pub longest: usize,
}

// Polynomials in arrays, which have room for all that the format counts.
#[derive(Clone, Copy)]
pub struct Polynomials<'a> {
    pub sizes: &'a [usize],
    pub coefficients: &'a [u64],
    pub format: Format,
    pub ghost covered: { Covers format sizes.now coefficients.now },
}
