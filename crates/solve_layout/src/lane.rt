// One polynomial in one lane of a block of 16 degrees.
ghost use Rattle.std.specs.Prelude.{◌≡◌, ◌+◌, ◌*◌, ◌<◌, length, get_or};
ghost use Rattle.solve_lattice.specs.Room.{lanes, block_degrees, last_degree};
ghost use Rattle.solve_lattice.specs.LaneStored.{lane};

use solve_lattice::{DEGREES, LANES};

// Returns coefficient e of f, 0 behind its last.
pub fn coefficient(f: &[u64], e: usize) -> u64
    ensures { result ≡ get_or f.now e 0 }
{
    f.get(e).copied().unwrap_or(0)
}

// Stores coefficient e of f at h[d + LANES * e] for each degree e of a block.
pub fn store_lane(h: &mut [u64], d: usize, f: &[u64])
    requires { d + lanes * last_degree < length h.old }
    ensures { h.new ≡ lane (λ e. get_or f.now e 0) h.old d block_degrees }
{
    for e in 0..DEGREES {
        h[d + LANES * e] = coefficient(f, e);
    }
}
