// Words stored by a rule.
ghost use Rattle.std.specs.Prelude.{◌≡◌, ℕ, ◌+◌, ◌<◌, ◌≤◌, length};
ghost use Rattle.vector.specs.Stored.{stored};

// Stores rule(j) at h[a + j] for j below n.
pub fn store_each<F: Fn(usize) -> u64>(h: &mut [u64], a: usize, n: usize, rule: F)
    requires room { a + n ≤ length h.old }
    requires callable { (j : ℕ) → j < n → F.pre rule j }
    ensures { (g : ℕ → ℕ) → ((j x : ℕ) → j < n → F.post rule j x → x ≡ g j) → h.new ≡ stored g h.old a n }
{
    for (j, word) in h[a..a + n].iter_mut().enumerate() {
        *word = rule(j);
    }
}
