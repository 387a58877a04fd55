// Where there is a solution: all of its certificate but the numerators.
ghost use Rattle.std.specs.Prelude.{◌≡◌, ◌≤◌};
ghost use Rattle.vector.specs.Bound.{AtMost};
ghost use Rattle.solve_lattice.specs.Room.{lanes, tail_words, most_coefficients};
ghost use Rattle.solve_lattice.specs.Memory.{ValidLevel, ZeroFrom, Sums};
ghost use Rattle.solve_lattice.specs.Input.{ValidInput};
ghost use Rattle.solve_lattice.specs.Output.{ValidOutput};
ghost use Rattle.solve_certify.specs.Inserted.{HasVanished};
ghost use Rattle.solve_certify.specs.Denominator.{HasTail, HasDenominator};
ghost use Rattle.solve_certify.specs.Solution.{stored_solution, SolutionFound};

use residue::modulus::Modulus;
use solve_lattice::{
    BLOCK, Block, COEFFICIENTS, Input, Level, Output, PRODUCT, Product, ROWS, Stage, Tail, divide,
};
use solve_popov::solve_short;
use solve_second::{make_monic, multiply, multiply_block};
use vector::copy;

// Stores `tail` made monic in d, and d times the right side, which stands behind the columns of `input`, in `t`, which is 0.
// Returns the number of coefficients of d.
pub fn find_denominator(
    d: &mut Block,
    t: &mut Product,
    tail: &Tail,
    input: &Input,
    columns: usize,
    modulus: Modulus,
) -> usize
    requires bounds { (columns ≤ lanes) × ValidInput modulus.p input.now }
    requires tail { HasTail modulus.p tail.now × ZeroFrom modulus.p tail.now 0 tail_words most_coefficients
        × Sums modulus.p 0 tail.now }
    requires cleared { AtMost 0 t.old }
    ensures { HasDenominator modulus.p columns input.now tail.now d.new
        t.new result }
{
    let mut side = [0u64; BLOCK];
    copy(&mut side, 0, input, BLOCK * columns, BLOCK);
    let size = make_monic(d, tail, modulus);
    multiply_block(t, d, size, &side, BLOCK, modulus);
    size
}

// Stores d, w and the n rows of Z at their places in `output`, of a system of m columns; those of the numerators, between d and w,
// stay as they are.
fn store_solution(output: &mut Output, d: &Block, w: &Block, rows: &[u64; ROWS], n: usize, m: usize)
    requires { (n ≤ lanes) × (m ≤ lanes) }
    ensures { output.new
        ≡ stored_solution n m d.now w.now rows.now output.old }
{
    copy(output, 0, d, 0, BLOCK);
    copy(output, BLOCK * (1 + m), w, 0, BLOCK);
    copy(output, BLOCK * (2 + m), rows, 0, BLOCK * n);
}

// Stores d, w and Z in `output`, and the coefficients of d b in the blocks of `level` in `quotients`, which are 0. `next` and
// `tail` are what the insertion of the right side into a copy of `level` left, when its block became zero; `next` changes.
// By L8, d and the second system's w have together at most one coefficient more than a polynomial of a certificate.
pub fn find_solution(
    output: &mut Output,
    quotients: &mut Product,
    next: &mut Level,
    level: &Level,
    tail: &Tail,
    input: &Input,
    stage: Stage,
)
    requires input { ValidInput stage.modulus.p input.now }
    requires level { ValidLevel stage.modulus.p level.now × ValidLevel stage.modulus.p next.old }
    requires tail { ZeroFrom stage.modulus.p tail.now 0 tail_words most_coefficients
        × Sums stage.modulus.p 0 tail.now }
    requires vanished { HasVanished stage.modulus.p stage.rows stage.columns input.now next.old tail.now }
    requires areas { AtMost 0 quotients.old × ValidOutput stage.modulus.p output.old }
    ensures { SolutionFound stage.modulus.p stage.rows stage.columns input.now level.now
        next.old tail.now quotients.new output.new }
{
    let n = stage.rows;
    let m = stage.columns;
    let modulus = stage.modulus;
    let mut d = [0u64; BLOCK];
    let mut t = [0u64; PRODUCT];
    let mut w = [0u64; BLOCK];
    let mut rows = [0u64; ROWS];
    let mut product = [0u64; BLOCK];
    let size = find_denominator(&mut d, &mut t, tail, input, m, modulus);
    divide(quotients, &mut t, PRODUCT, level, modulus);
    solve_short(&mut w, &mut rows, next, n, &d, size, modulus);
    multiply(&mut product, &d, size, &w, COEFFICIENTS + 1 - size, modulus);
    store_solution(output, &d, &product, &rows, n, m);
}
