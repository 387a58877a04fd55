// Products: all terms of a product are added up before they are reduced.
ghost use Rattle.std.specs.Prelude.{◌+◌, ◌≤◌, length};
ghost use Rattle.modular.specs.Bits.{most16};
ghost use Rattle.vector.specs.Bound.{AtMost};
ghost use Rattle.polynomial_words.specs.Product.{unreduced_terms, sum_most, GainsProduct};

use vector::add_scaled;

// Adds f g to h, for n words of f and k words of g: a row c x^i g for each coefficient c of f. The words of h may be sums of many
// products.
pub fn add_rows(h: &mut [u64], f: &[u64], n: usize, g: &[u64], k: usize)
    requires n_in_bounds { (n ≤ length f.now) × (k ≤ length g.now) × (n + k ≤ length h.old + 1) × (n ≤ unreduced_terms) }
    requires small { AtMost sum_most h.old × AtMost most16 f.now × AtMost most16 g.now }
    ensures { GainsProduct h.old f.now n g.now k h.new }
{
    for i in 0..n {
        add_scaled(h, i, g, 0, k, f[i]);
    }
}
