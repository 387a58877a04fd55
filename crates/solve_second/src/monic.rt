// A tail made monic.
ghost use Rattle.std.specs.Prelude.{◌≡◌, ◌%◌, ◌<◌, ◌≤◌, length, get_or};
ghost use Rattle.modular.specs.Modulo.{modulo};
ghost use Rattle.vector.specs.Bound.{Reducible};
ghost use Rattle.vector.specs.Stored.{stored};
ghost use Rattle.solve_lattice.specs.Memory.{ZeroFrom, Sums};
ghost use Rattle.solve_lattice.specs.Room.{tail_words, most_coefficients};
ghost use Rattle.solve_second.specs.Monic.{MadeMonic};

use residue::modulus::Modulus;
use solve_lattice::{BLOCK, Block, COEFFICIENTS, Tail};
use vector::{clear, find_leading, store_each};

// Stores y[j] times `factor`, modulo p, at h[j] for j below n.
fn store_scaled(h: &mut [u64], y: &[u64], n: usize, factor: u64, modulus: Modulus)
    requires bounds { (n ≤ length h.old) × (n ≤ length y.now) × (factor < modulus.p) }
    requires sums { Reducible modulus.p y.now n }
    ensures { h.new ≡ stored (λ j. (modulo modulus.p).mul (get_or y.now j 0 % modulus.p) factor)
        h.old 0 n }
{
    store_each(h, 0, n, |j| modulus.mul(modulus.reduce(y[j]), factor));
}

// Divides `tail`, in sums that are not reduced, by its leading coefficient into d. Returns the number of its coefficients. A tail
// that is zero has none, and zero is stored.
pub fn make_monic(d: &mut Block, tail: &Tail, modulus: Modulus) -> usize
    requires tail { ZeroFrom modulus.p tail.now 0 tail_words most_coefficients × Sums modulus.p 0 tail.now }
    ensures { MadeMonic modulus.p tail.now d.new result }
{
    let found = find_leading(tail, COEFFICIENTS, modulus);
    clear(d, 0, BLOCK);
    if found.size == 0 {
        return 0;
    }
    let inverse = modulus.inverse(found.value);
    store_scaled(d, tail, found.size, inverse, modulus);
    found.size
}
