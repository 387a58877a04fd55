// A polynomial by value, and words to compute in.
ghost use Rattle.std.specs.Prelude.{◌≡◌, ℕ, length, get_or};
ghost use Rattle.polynomial.specs.Value.{polynomial_room};

// The most coefficients of a polynomial by value: as many as a certificate's polynomial (121) times a row sum (136) has.
pub const POLYNOMIAL_ROOM: usize = 256;

// `size` coefficients, lowest power first, the last not 0, and zeros behind them.
#[derive(Clone, Copy)]
pub struct Polynomial {
    pub size: usize,
    pub coefficients: [u64; POLYNOMIAL_ROOM],
}

// Returns words to compute in, all 0.
pub fn zeros() -> [u64; POLYNOMIAL_ROOM]
    ensures { (length result ≡ polynomial_room) × ((i : ℕ) → get_or result i 0 ≡ 0) }
{
    [0; POLYNOMIAL_ROOM]
}
