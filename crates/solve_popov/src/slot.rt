// One slot of a level less multiples of the others and of d, and put back: its last word, and with it its pivot, stays.
ghost use Rattle.std.specs.Prelude.{◌≡◌, ◌<◌, ◌≤◌, length};
ghost use Rattle.vector.specs.Bound.{AtMost, Reducible};
ghost use Rattle.solve_lattice.specs.Room.{lanes, block_words, tail_words, most_coefficients};
ghost use Rattle.solve_lattice.specs.Memory.{slot_size, ValidLevel};
ghost use Rattle.solve_descent.specs.Kernel.{ValidKernel};
ghost use Rattle.solve_popov.specs.Rework.{ReducedFound, slot_stored, SlotReworked};

use residue::modulus::Modulus;
use solve_descent::reduce_by_kernel;
use solve_lattice::{BLOCK, Block, Level, SIZES, SLOT, TAIL, TAIL_SIZES, Tail, reduce_words};
use vector::{copy, exchange};

// Stores slot i of `level`, less multiples of the others that take away all words that they can but the last, in `block` and
// `tail`, which are 0; the tail less a multiple of d, of `size` coefficients, too, so that fewer than `size` are left.
fn find_reduced(
    block: &mut Block,
    tail: &mut Tail,
    level: &Level,
    i: usize,
    d: &Block,
    size: usize,
    modulus: Modulus,
)
    requires bounds { (i < lanes) × ValidLevel modulus.p level.now × (0 < slot_size level.now i) }
    requires kernel { ValidKernel modulus.p d.now size × (0 < size) }
    requires room { (length block.old ≡ block_words) × (length tail.old ≡ tail_words) }
    requires zeros { AtMost 0 block.old × AtMost 0 tail.old }
    ensures { ReducedFound modulus.p level.now i d.now size block.new
        tail.new }
{
    let words = level[SIZES + i] as usize;
    copy(block, 0, level, SLOT * i, BLOCK);
    copy(tail, 0, level, SLOT * i + BLOCK, BLOCK);
    reduce_words(block, tail, level, words - 1, modulus);
    reduce_by_kernel(tail, d, size, modulus);
}

// Stores `block` and `tail` in slot i of `level`, whose last word stays; the tail has at most `size` coefficients.
fn store_slot(
    level: &mut Level,
    i: usize,
    block: &mut Block,
    tail: &mut Tail,
    size: usize,
    modulus: Modulus,
)
    requires bounds { (i < lanes) × ValidLevel modulus.p level.old × (size ≤ most_coefficients) }
    requires room { (length block.old ≡ block_words) × (length tail.old ≡ tail_words) }
    requires sums { Reducible modulus.p block.old block_words × Reducible modulus.p tail.old block_words }
    ensures { level.new
        ≡ slot_stored modulus.p level.old i block.old tail.old size }
{
    let words = level[SIZES + i] as usize;
    let tail_words = (level[TAIL_SIZES + i] as usize).max(size);
    exchange(block, level, SLOT * i, words, modulus);
    exchange(tail, level, SLOT * i + BLOCK, tail_words, modulus);
    level[TAIL_SIZES + i] = size as u64;
}

// Reduces slot i of `level` by the others, and its tail modulo d, of `size` coefficients.
pub fn reduce_slot(level: &mut Level, i: usize, d: &Block, size: usize, modulus: Modulus)
    requires bounds { (i < lanes) × ValidLevel modulus.p level.old × (0 < slot_size level.old i) }
    requires kernel { ValidKernel modulus.p d.now size × (0 < size) × (size ≤ most_coefficients) }
    ensures { SlotReworked modulus.p level.old i d.now level.new }
{
    let mut block = [0u64; BLOCK];
    let mut tail = [0u64; TAIL];
    find_reduced(&mut block, &mut tail, level, i, d, size, modulus);
    store_slot(level, i, &mut block, &mut tail, size - 1, modulus);
}
