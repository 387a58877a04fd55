// The moves of an insertion: a multiple of the slot at the pivot is taken off the hand, and the hand and that slot change places.
ghost use Rattle.std.specs.Prelude.{◌≡◌, ℕ, ◌+◌, ◌<◌, ◌≤◌, length, get_or};
ghost use Rattle.modular.specs.Bits.{bound32, bound64};
ghost use Rattle.vector.specs.Multiple.{sum_at};
ghost use Rattle.vector.specs.Stored.{stored};
ghost use Rattle.solve_lattice.specs.Memory.{memory, Valid};
ghost use Rattle.solve_lattice.specs.Moves.{Fits, HasRoom, Stepped, Swapped};

use crate::hand::Hand;
use crate::insertion::Insertion;
use crate::pivot::pivot_row;
use crate::room::{BLOCK, INVERSES, LANES, Level, SIZES, SLOT, TAIL_SIZES, Tail};
use crate::step::{find_rest, take_multiple};
use residue::modulus::Modulus;
use vector::{Leading, add_scaled, exchange, find_leading};

// Adds c times n words of s from a on to h from d on, by a call only where there are words: many slots have no tail.
pub fn add_tail(h: &mut [u64], d: usize, s: &[u64], a: usize, n: usize, c: u64)
    requires n_in_bounds { (d + n ≤ length h.old) × (a + n ≤ length s.now) × (c < bound32) }
    requires small { (j : ℕ) → j < n → get_or s.now (a + j) 0 < bound32 }
    requires fits { (j : ℕ) → j < n → sum_at h.old d s.now a c j < bound64 }
    ensures { h.new ≡ stored (sum_at h.old d s.now a c) h.old d n }
{
    if 0 < n {
        add_scaled(h, d, s, a, n, c);
    }
}

// Takes the multiple of the slot at the pivot off the hand, `block` and `tail`, that takes its leading word away. Returns what the
// hand then is.
pub fn take_from_hand(
    block: &mut [u64],
    tail: &mut Tail,
    level: &Level,
    hand: Hand,
    modulus: Modulus,
) -> Hand
    requires memory { Valid modulus.p (memory level.now block.old tail.old hand) }
    requires fits { Fits (memory level.now block.old tail.old hand) }
    ensures { Stepped modulus.p
        (memory level.now block.old tail.old hand)
        (memory level.now block.new tail.new result) }
{
    let k = hand.size;
    let q = pivot_row(k);
    let shift = (k - level[SIZES + q] as usize) / LANES;
    let size = level[TAIL_SIZES + q] as usize;
    let found = Leading {
        size: k,
        value: hand.leading,
    };
    let left = take_multiple(block, level, found, modulus);
    let rest = find_rest(block, left.size, left.leading, left.unseen, modulus);
    let minus = modulus.p - left.factor;
    // all words of its degrees, as in `take_multiple`
    let words = size.next_multiple_of(LANES);
    add_tail(tail, shift, level, SLOT * q + BLOCK, words, minus);
    Hand {
        size: rest.size,
        leading: rest.value,
        tail_size: hand.tail_size.max(shift + size),
    }
}

impl Insertion<'_> {
    ghost use Rattle.solve_lattice.specs.References.{memory_of, SameReferences};

    // Takes the multiple of the slot at the pivot off the hand that takes its leading word away.
    pub fn take_from_hand(&mut self)
        requires fits { Fits (memory_of self.old) }
        ensures stepped { Stepped self.old.modulus.p (memory_of self.old) (memory_of self.new) }
        ensures level { self.new.level.now ≡ self.old.level.now }
        ensures same { SameReferences self.old self.new }
    {
        self.hand = take_from_hand(self.block, self.tail, self.level, self.hand, self.modulus);
    }

    // Exchanges the hand with the slot at its pivot, which may be empty; reduces what goes into the slot.
    pub fn swap_with_slot(&mut self)
        requires room { HasRoom self.old.modulus.p (memory_of self.old) }
        ensures swapped { Swapped self.old.modulus.p (memory_of self.old) (memory_of self.new) }
        ensures same { SameReferences self.old self.new }
    {
        let hand = self.hand;
        let modulus = self.modulus;
        let level = &mut *self.level;
        let block = &mut *self.block;
        let tail = &mut *self.tail;
        let k = hand.size;
        let q = pivot_row(k);
        let size = level[SIZES + q] as usize;
        let slot_tail = level[TAIL_SIZES + q] as usize;
        let hand_tail = find_leading(tail, hand.tail_size, modulus).size;
        let words = k.max(size);
        exchange(block, level, SLOT * q, words, modulus);
        let tail_words = hand_tail.max(slot_tail);
        exchange(tail, level, SLOT * q + BLOCK, tail_words, modulus);
        level[SIZES + q] = k as u64;
        level[TAIL_SIZES + q] = hand_tail as u64;
        level[INVERSES + q] = modulus.inverse(hand.leading);
        let found = find_leading(block, size, modulus);
        self.hand = Hand {
            size: found.size,
            leading: found.value,
            tail_size: slot_tail,
        };
    }
}
