// The operands of arithmetic.
ghost use Rattle.std.specs.Prelude.{◌+◌, ◌<◌, ◌≤◌};
ghost use Rattle.polynomial.specs.Value.{polynomial_room, ValidPolynomial};
ghost use Rattle.stored_cases.specs.Places.{case_words};

use crate::input::{WORDS, size_at, unpack_coefficients, word_below};
use polynomial::Polynomial;
use polynomial::value::{POLYNOMIAL_ROOM, zeros};
use residue::modulus::Modulus;

// Gives the residue at a place, 0 where there is none.
pub fn residue_at(case: &[u32; WORDS], place: usize, modulus: Modulus) -> u64
    ensures { result < modulus.p }
{
    word_below(case, place, modulus.p)
}

// Reads the polynomial at a place: its number of coefficients, then these. Where there can be none, it is zero.
pub fn read_operand(case: &[u32; WORDS], place: usize, modulus: Modulus) -> Polynomial
    requires { place < case_words }
    ensures { ValidPolynomial modulus.p result }
{
    let mut words = zeros();
    unpack_coefficients(&mut words, case, place + 1, modulus.p);
    let n = size_at(case, place, POLYNOMIAL_ROOM);
    Polynomial::from_words(&words, 0, n, modulus)
}

// Gives the place behind the polynomial at a place.
pub fn next_operand(case: &[u32; WORDS], place: usize) -> usize
    requires { place < case_words }
    ensures { result ≤ place + 1 + polynomial_room }
{
    place + 1 + size_at(case, place, POLYNOMIAL_ROOM)
}
