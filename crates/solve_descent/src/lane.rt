// One lane of the quotients, taken out: the coefficient of one slot.
ghost use Rattle.std.specs.Prelude.{◌≡◌, ◌+◌, ◌*◌, ◌<◌, ◌≤◌, length, get_or};
ghost use Rattle.vector.specs.Stored.{stored};
ghost use Rattle.solve_lattice.specs.Room.{lanes, block_words};

use solve_lattice::{BLOCK, LANES, Product};
use vector::store_each;

// Stores quotients[LANES * e + lane] at to[at + e] for e below BLOCK.
pub fn gather_lane(to: &mut [u64], at: usize, quotients: &Product, lane: usize)
    requires { (lane < lanes) × (at + block_words ≤ length to.old) }
    ensures { to.new ≡ stored (λ e. get_or quotients.now (lanes * e + lane) 0)
        to.old at block_words }
{
    store_each(to, at, BLOCK, |e| quotients[LANES * e + lane]);
}
