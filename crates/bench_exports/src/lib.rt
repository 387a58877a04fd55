// What bench/ times, exported to C. Each export tests what the timed function requires, so that C may call it with any words.
#![tactic(auto)]

ghost use Rattle.std.specs.Prelude.{◌≡◌};
ghost use Rattle.bench_exports.specs.Rounds.{all_at_most, small, fit, allowed, rounds};

// The most that a factor, or a word that it is taken times, may be.
const FACTOR_MOST: u64 = 65535;

// The most that a word may be to which products are added.
const SUM_MOST: u64 = 4294967295;

// There are fewer factors than this.
const FACTORS_BOUND: usize = 2147483648;

// Tells whether every word of l is at most `limit`.
fn all_at_most(l: &[u64], limit: u64) -> bool
    ensures { result ≡ all_at_most limit l.now }
{
    l.iter().all(|word| *word <= limit)
}

// Tells whether the sums of all steps fit their words.
#[tactic(auto, unfolding(crate::specs::Rounds::small))]
fn words_small(h: &[u64], s: &[u64], factors: &[u64]) -> bool
    ensures { result ≡ small h.now s.now factors.now }
{
    all_at_most(factors, FACTOR_MOST) && all_at_most(s, FACTOR_MOST) && all_at_most(h, SUM_MOST)
}

// Tells whether all words of the steps are there, and their sums fit.
#[tactic(auto, unfolding(crate::specs::Rounds::fit))]
fn steps_fit(h: &[u64], s: &[u64], factors: &[u64], counts: &[u64]) -> bool
    ensures { result ≡ fit h.now s.now factors.now counts.now }
{
    s.len() <= h.len()
        && factors.len() <= counts.len()
        && factors.len() < FACTORS_BOUND
        && all_at_most(counts, s.len() as u64)
        && words_small(h, s, factors)
}

// Makes a step for each factor: adds factors[t] * s[j] to h[j] for j below counts[t]. Makes none where one might not fit. Returns
// how many steps were made.
#[unsafe(no_mangle)]
pub extern "C" fn bench_add_scaled(
    h: &mut [u64],
    s: &[u64],
    factors: &[u64],
    counts: &[u64],
) -> usize
    ensures count { result ≡ allowed h.old s.now factors.now counts.now }
    ensures words { h.new ≡ rounds result factors.now counts.now s.now h.old }
{
    if !steps_fit(h, s, factors, counts) {
        return 0;
    }
    for (factor, count) in factors.iter().zip(counts) {
        vector::add_scaled(h, 0, s, 0, *count as usize, *factor);
    }
    factors.len()
}
