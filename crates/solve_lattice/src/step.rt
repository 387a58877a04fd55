// The step that insertion and division make: a multiple of a slot is taken off the block in hand.
ghost use Rattle.std.specs.Prelude.{◌≡◌, ◌+◌, ◌-◌, ◌*◌, ◌%◌, ◌<◌, ◌≤◌, length};
ghost use Rattle.residue.specs.Sum.{SmallSum};
ghost use Rattle.vector.specs.Multiple.{sum_at};
ghost use Rattle.solve_lattice.specs.Memory.{Sums};
ghost use Rattle.solve_lattice.specs.Step.{HasStep, Takes, Rest, Left};

use crate::pivot::pivot_row;
use crate::room::{INVERSES, LANES, Level, SIZES, SLOT};
use residue::modulus::Modulus;
use vector::{Leading, add_scaled, find_leading_near};

// What a step leaves of the block: a number of words behind which all are 0 modulo p, the last of them modulo p, or 0 where that
// is not known, the number of words that are left to look at where it is 0, and the factor of the multiple.
// `leading` is no Option: where that word is 0 and where it is not known, `find_rest` looks again, so an Option says no more.
#[derive(Clone, Copy)]
pub struct Remains {
    pub size: usize,
    pub leading: u64,
    pub unseen: usize,
    pub factor: u64,
}

// Returns what a step leaves at its last place but one, modulo p; 0 where it has no such place.
pub fn word_before(
    h: &[u64],
    d: usize,
    s: &[u64],
    a: usize,
    n: usize,
    c: u64,
    modulus: Modulus,
) -> u64
    requires bounds { (d + n ≤ length h.now) × (a + n ≤ length s.now) }
    requires sum { SmallSum modulus.p (sum_at h.now d s.now a c (n - 2)) }
    ensures none { n < 2 → result ≡ 0 }
    ensures some { 2 ≤ n → result ≡ sum_at h.now d s.now a c (n - 2) % modulus.p }
{
    if n < 2 {
        return 0;
    }
    let j = n - 2;
    modulus.reduce(h[d + j] + c * s[a + j])
}

// Returns how many of k words are left to look at behind a step by a slot of n words where `word_before` is 0: not the leading one,
// and not the one before, where the step has that place.
pub fn words_unseen(k: usize, n: usize) -> usize
    requires { (0 < n) × (n ≤ k) }
    ensures none { n < 2 → result ≡ k - 1 }
    ensures some { 2 ≤ n → result ≡ k - 1 - 1 }
{
    if n < 2 {
        return k - 1;
    }
    k - 2
}

// Takes the multiple of the slot at the pivot off `block` that takes its leading word away. Returns what that leaves.
pub fn take_multiple(block: &mut [u64], level: &Level, found: Leading, modulus: Modulus) -> Remains
    requires step { HasStep modulus.p level.now block.old found.size found.value }
    requires sums { Sums modulus.p 1 block.old }
    ensures { Takes modulus.p level.now block.old found.size found.value
        block.new result }
{
    let k = found.size;
    let q = pivot_row(k);
    let size = level[SIZES + q] as usize;
    let factor = modulus.mul(found.value, level[INVERSES + q]);
    let minus = modulus.p - factor;
    // all words of the slot's degrees: those behind its size are 0, and the loop has none left over from its vectors
    let words = size.next_multiple_of(LANES);
    // in most cases the next leading word: with it before the loop, the processor works out the next factor during the loop
    let next = word_before(block, k - size, level, SLOT * q, size, minus, modulus);
    add_scaled(block, k - size, level, SLOT * q, words, minus);
    let unseen = words_unseen(k, size);
    let rest = k - 1;
    Remains {
        size: rest,
        leading: next,
        unseen,
        factor,
    }
}

// Finds size and leading word of what a step leaves: n words, the last of them `value` where that is not 0, else at most `unseen`
// words. Branches on `value`, which the processor foresees where p is large: a size computed from `value` would have the next step
// wait for it.
pub fn find_rest(block: &[u64], n: usize, value: u64, unseen: usize, modulus: Modulus) -> Leading
    requires rest { Rest modulus.p block.now n value unseen }
    ensures { Left modulus.p block.now n result.size result.value }
{
    if value != 0 {
        return Leading { size: n, value };
    }
    find_leading_near(block, unseen, modulus)
}
