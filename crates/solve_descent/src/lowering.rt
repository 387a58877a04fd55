// One column of the way down by quotients.
ghost use Rattle.std.specs.Prelude.{◌≡◌, ℕ, ◌+◌, ◌-◌, ◌<◌, ◌≤◌, get_or, set};
ghost use Rattle.solve_lattice.specs.Room.{lanes, block_words, output_words, last_lane};
ghost use Rattle.solve_descent.specs.Lowering.{Lowers};

use crate::lane::gather_lane;
use crate::multiple::subtract_multiple;
use residue::modulus::Modulus;
use solve_lattice::{BLOCK, Block, LAST_LANE, Output, Product};
use vector::copy;

// Takes a column off `quotients` that filled the empty slot q. Stores its coordinate, the quotient of slot q, in `output` from
// `place` on. `factors` are the column's in the other slots; its own, 1, is put among them, so that the quotient of slot q becomes
// 0.
pub fn lower_quotients(
    output: &mut Output,
    quotients: &mut Product,
    factors: &mut Block,
    q: usize,
    place: usize,
    modulus: Modulus,
)
    requires bounds { (q < lanes) × (place + block_words ≤ output_words) }
    requires quotients { (i : ℕ) → get_or quotients.old i 0 < modulus.p }
    requires output { (i : ℕ) → get_or output.old i 0 < modulus.p }
    requires factors { (i : ℕ) → get_or factors.old i 0 < modulus.p }
    ensures lowers { Lowers modulus.p q quotients.old factors.old output.old place
        quotients.new output.new }
    ensures factors { factors.new ≡ set factors.old (last_lane - q) 1 }
{
    let mut y = [0u64; BLOCK];
    gather_lane(&mut y, 0, quotients, LAST_LANE - q);
    copy(output, place, &y, 0, BLOCK);
    factors[LAST_LANE - q] = 1;
    subtract_multiple(quotients, &y, factors, modulus);
}
