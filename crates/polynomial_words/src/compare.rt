// Two ranges of words compared.
ghost use Rattle.std.specs.Prelude.{◌≡◌, ◌≤◌, length, take};
ghost use Rattle.polynomial_words.specs.Decides.{Decides};

// Tells whether the first n words of f and g are the same.
pub fn same_words(f: &[u64], g: &[u64], n: usize) -> bool
    requires { (n ≤ length f.now) × (n ≤ length g.now) }
    ensures { Decides result (take n f.now ≡ take n g.now) }
{
    f[..n] == g[..n]
}
