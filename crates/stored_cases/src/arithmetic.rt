// The arithmetic of residues and polynomials: operations by their codes. Of what cannot be tried there is no line.
ghost use Rattle.std.specs.Prelude.{◌<◌, ◌≤◌};
ghost use Rattle.polynomial.specs.Value.{ValidPolynomial, polynomial_room};

use crate::codes::{Operation, PairOperation};
use crate::input::{WORDS, word};
use crate::operand::{next_operand, read_operand, residue_at};
use crate::output::{Output, separate, text};
use division::{gcd, quotient, remainder};
use polynomial::Polynomial;
use polynomial::value::POLYNOMIAL_ROOM;
use residue::modulus::Modulus;
use residue::prime::is_prime;
use std::io::Write;

// Answers a case: its code, p and operands.
pub fn answer(output: &mut Output, case: &[u32; WORDS]) {
    let Ok(p) = u16::try_from(word(case, 1)) else {
        return;
    };
    // A code that no operation has is taken for the quotient's.
    let other = Operation::Pair(PairOperation::Quotient);
    let operation = Operation::try_from(word(case, 0)).unwrap_or(other);
    if is_prime(p) {
        modulo(output, case, operation, Modulus::new(p as u64));
    } else if operation == Operation::Prime {
        text(output, b"not prime\n");
    }
}

// Tries an operation modulo a prime.
fn modulo(output: &mut Output, case: &[u32; WORDS], operation: Operation, modulus: Modulus) {
    match operation {
        Operation::Prime => text(output, b"prime\n"),
        Operation::Residues => residues(
            output,
            residue_at(case, 2, modulus),
            residue_at(case, 3, modulus),
            modulus,
        ),
        Operation::Multiple => {
            let f = read_operand(case, 3, modulus);
            show(output, f.scale(residue_at(case, 2, modulus), modulus));
        }
        Operation::Pair(operation) => together(
            output,
            operation,
            read_operand(case, 2, modulus),
            read_operand(case, next_operand(case, 2), modulus),
            modulus,
        ),
    }
}

// Prints a + b, a - b, a b, -a and the inverse of a, `-` for that of 0.
fn residues(output: &mut Output, a: u64, b: u64, modulus: Modulus)
    requires { (a < modulus.p) × (b < modulus.p) }
{
    let sum = modulus.add(a, b);
    let difference = modulus.sub(a, b);
    let product = modulus.mul(a, b);
    let negative = modulus.neg(a);
    let _ = write!(output, "{sum} {difference} {product} {negative} ");
    if a == 0 {
        text(output, b"-\n");
    } else {
        let inverse = modulus.inverse(a);
        let _ = writeln!(output, "{inverse}");
    }
}

// Tries an operation on f and g, or on f alone.
fn together(
    output: &mut Output,
    operation: PairOperation,
    f: Polynomial,
    g: Polynomial,
    modulus: Modulus,
)
    requires { ValidPolynomial modulus.p f × ValidPolynomial modulus.p g }
{
    match operation {
        PairOperation::Sum => show(output, f.add(g, modulus)),
        PairOperation::Difference => show(output, f.subtract(g, modulus)),
        PairOperation::Product if f.size + g.size <= POLYNOMIAL_ROOM + 1 => {
            show(output, f.multiply(g, modulus))
        }
        PairOperation::Remainder if 0 < g.size => show(output, remainder(f, g, modulus)),
        PairOperation::Quotient if 0 < g.size => show(output, quotient(f, g, modulus)),
        PairOperation::Product | PairOperation::Remainder | PairOperation::Quotient => {}
        PairOperation::Monic => show(output, f.monic(modulus)),
        PairOperation::Gcd => show(output, gcd(f, g, modulus)),
        PairOperation::Equal if f.equal(g) => text(output, b"equal\n"),
        PairOperation::Equal => text(output, b"different\n"),
    }
}

// Prints the coefficients of f with one space between, `zero` for none.
fn show(output: &mut Output, f: Polynomial)
    requires { f.size ≤ polynomial_room }
{
    if f.size == 0 {
        text(output, b"zero");
    }
    for (i, c) in f.coefficients[..f.size].iter().enumerate() {
        separate(output, i);
        let _ = write!(output, "{c}");
    }
    text(output, b"\n");
}
