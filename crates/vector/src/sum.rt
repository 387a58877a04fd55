// hand + c·slot on eight words.
ghost use Rattle.std.specs.Prelude.{◌≡◌, ◌+◌, ◌≤◌, length};
ghost use Rattle.vector.specs.Sum.{sum_at, SumFits, SumsFit};
ghost use Rattle.vector.specs.RowStored.{four_stored, row_stored, row_words};

use residue::modulus::BOUND_32;

// Words of a row.
pub const ROW_WORDS: usize = 8;

// Four words, by name: eight sums in an array of `array::from_fn`, stored by `copy_from_slice`, took up to 2.7 times as long.
#[derive(Clone, Copy)]
pub struct Four {
    pub first: u64,
    pub second: u64,
    pub third: u64,
    pub fourth: u64,
}

// Returns h[d + j] + c * s[a + j]. The remainders change nothing: they show the compiler that a product of two numbers of 32 bits
// is meant, for which it has vector instructions.
pub fn sum_at(h: &[u64], d: usize, s: &[u64], a: usize, c: u64, j: usize) -> u64
    requires { SumFits h.now d s.now a c j }
    ensures { result ≡ sum_at h.now d s.now a c j }
{
    h[d + j] + c % BOUND_32 * (s[a + j] % BOUND_32)
}

// Returns h[d + j] + c * s[a + j] for j below 4.
fn sums_at(h: &[u64], d: usize, s: &[u64], a: usize, c: u64) -> Four
    requires { SumsFit h.now d s.now a 4 c }
    ensures first { result.first ≡ sum_at h.now d s.now a c 0 }
    ensures second { result.second ≡ sum_at h.now d s.now a c 1 }
    ensures third { result.third ≡ sum_at h.now d s.now a c 2 }
    ensures fourth { result.fourth ≡ sum_at h.now d s.now a c 3 }
{
    Four {
        first: sum_at(h, d, s, a, c, 0),
        second: sum_at(h, d, s, a, c, 1),
        third: sum_at(h, d, s, a, c, 2),
        fourth: sum_at(h, d, s, a, c, 3),
    }
}

// Stores v at h[d] .. h[d + 3].
fn store_four(h: &mut [u64], d: usize, v: Four)
    requires { d + 4 ≤ length h.old }
    ensures { h.new ≡ four_stored h.old d v.first v.second v.third v.fourth }
{
    h[d] = v.first;
    h[d + 1] = v.second;
    h[d + 2] = v.third;
    h[d + 3] = v.fourth;
}

// Adds c * s[a + j] to h[d + j] for j below 8. All words are read before any is written: so the compiler takes vector instructions
// with no test whether the ranges overlap.
pub fn add_row(h: &mut [u64], d: usize, s: &[u64], a: usize, c: u64)
    requires { SumsFit h.old d s.now a row_words c }
    ensures { h.new ≡ row_stored (sum_at h.old d s.now a c) h.old d }
{
    let low = sums_at(h, d, s, a, c);
    let high = sums_at(h, d + 4, s, a + 4, c);
    store_four(h, d, low);
    store_four(h, d + 4, high);
}
