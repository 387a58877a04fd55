// A vector reduced by the slots of a level: no word is left that a slot could take away.
ghost use Rattle.std.specs.Prelude.{◌≡◌, ◌<◌, ◌≤◌, length, MatchOption};
ghost use Rattle.vector.specs.Bound.{AtMost};
ghost use Rattle.solve_lattice.specs.Room.{block_words, tail_words};
ghost use Rattle.solve_lattice.specs.Memory.{ValidLevel, Sums};
ghost use Rattle.solve_lattice.specs.Step.{HasMultiple};
ghost use Rattle.solve_lattice.specs.Remainder.{WordFound, TakesWord, Reducing};

use crate::moves::add_tail;
use crate::pivot::pivot_row;
use crate::room::{BLOCK, Block, INVERSES, LANES, Level, SIZES, SLOT, TAIL_SIZES, Tail};
use residue::modulus::Modulus;
use vector::{Leading, add_scaled};

// Returns the k-th word of `block` modulo p where it is not 0, and the slot of its row is filled and has at most k words.
pub fn word_to_take(block: &Block, level: &Level, k: usize, modulus: Modulus) -> Option<u64>
    requires { (0 < k) × (k ≤ block_words) × Sums modulus.p 0 block.now }
    ensures { MatchOption result (WordFound modulus.p level.now block.now k 0)
        (λ value. (0 < value) × WordFound modulus.p level.now block.now k value) }
{
    let size = level[SIZES + pivot_row(k)] as usize;
    if size == 0 || k < size {
        return None;
    }
    let value = modulus.reduce(block[k - 1]);
    (0 < value).then_some(value)
}

// Takes the multiple of the slot of a word's row off `block` and `tail` that takes the word away, the leading one or another.
pub fn take_word(block: &mut Block, tail: &mut Tail, level: &Level, word: Leading, modulus: Modulus)
    requires bounds { (word.size ≤ block_words) }
    requires multiple { HasMultiple modulus.p level.now block.old word.size word.value }
    requires sums { Sums modulus.p 1 block.old × Sums modulus.p 1 tail.old }
    ensures { TakesWord modulus.p level.now block.old tail.old word.size word.value
        block.new tail.new }
{
    let k = word.size;
    let q = pivot_row(k);
    let size = level[SIZES + q] as usize;
    let tail_size = level[TAIL_SIZES + q] as usize;
    let minus = modulus.p - modulus.mul(word.value, level[INVERSES + q]);
    // all words of their degrees, as in `take_multiple`
    let words = size.next_multiple_of(LANES);
    add_scaled(block, k - size, level, SLOT * q, words, minus);
    let tail_words = tail_size.next_multiple_of(LANES);
    add_tail(
        tail,
        (k - size) / LANES,
        level,
        SLOT * q + BLOCK,
        tail_words,
        minus,
    );
}

// Takes multiples of the slots of `level` off `block` and `tail` until none of the first n words of `block` is left that a slot
// could take away.
pub fn reduce_words(block: &mut Block, tail: &mut Tail, level: &Level, n: usize, modulus: Modulus)
    requires level { ValidLevel modulus.p level.now × (n ≤ block_words) }
    requires room { (length block.old ≡ block_words) × (length tail.old ≡ tail_words) }
    requires words { AtMost modulus.p block.old × AtMost modulus.p tail.old }
    ensures { Reducing modulus.p level.now block.old tail.old n 0
        block.new tail.new }
{
    for k in (1..=n).rev() {
        if let Some(value) = word_to_take(block, level, k, modulus) {
            take_word(block, tail, level, Leading { size: k, value }, modulus);
        }
    }
}
