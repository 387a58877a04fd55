// A coordinate reduced modulo the kernel of its level.
ghost use Rattle.std.specs.Prelude.{◌*◌};
ghost use Rattle.vector.specs.Bound.{AtMost};
ghost use Rattle.solve_lattice.specs.Room.{combination_products};
ghost use Rattle.solve_descent.specs.Kernel.{ValidKernel, TakesKernel};

use residue::modulus::Modulus;
use solve_lattice::{Block, TAIL, Tail};
use vector::add_scaled;

// Takes multiples of `kernel`, of which `size` words count, off y until fewer than `size` words are left. Where the level has no
// kernel, the size is 0 and nothing is done.
pub fn reduce_by_kernel(y: &mut Tail, kernel: &Block, size: usize, modulus: Modulus)
    requires kernel { ValidKernel modulus.p kernel.now size }
    requires sums { AtMost (combination_products * (modulus.p * modulus.p)) y.old }
    ensures { TakesKernel modulus.p y.old kernel.now size y.new }
{
    if size == 0 {
        return;
    }
    let last = size - 1;
    let inverse = modulus.inverse(kernel[last]);
    for i in (last..TAIL).rev() {
        let word = y[i];
        // nothing is to be taken off where the word is 0 modulo p; most are 0, and those need no reduction
        if 0 < word {
            let factor = modulus.mul(modulus.reduce(word), inverse);
            if 0 < factor {
                add_scaled(y, i - last, kernel, 0, size, modulus.p - factor);
            }
        }
    }
}
