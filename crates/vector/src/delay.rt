// The factors x of a polynomial, counted from its lowest coefficient.
ghost use Rattle.std.specs.Prelude.{◌≡◌};
ghost use Rattle.modular.specs.Delay.{delay};

// Returns the number of zeros in front: of a polynomial that is not zero, coefficients lowest power first, that of its factors x.
pub fn find_delay(coefficients: &[u64]) -> usize
    ensures { result ≡ delay coefficients.now }
{
    coefficients.iter().take_while(|c| **c == 0).count()
}
