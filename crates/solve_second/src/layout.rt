// The second system of a level laid out: its slots and its right side.
ghost use Rattle.std.specs.Prelude.{◌≡◌, ◌<◌, ◌≤◌, length};
ghost use Rattle.vector.specs.Bound.{AtMost};
ghost use Rattle.solve_lattice.specs.Room.{level_words, product_words, lanes};
ghost use Rattle.solve_second.specs.Greatest.{LowBlocks};
ghost use Rattle.solve_second.specs.Laid.{SecondLaid};
ghost use Rattle.solve_second.specs.SideFilling.{TailsEnd};
ghost use Rattle.solve_second.specs.Side.{sided, side_row};

use crate::second_side::{Side, lay_side};
use crate::transpose::lay_slots;
use solve_lattice::{Level, Product};

// Lays out the second system of a level of n rows, with `side` for its right side, in `transposed` and `block`, which are 0.
pub fn lay_second(transposed: &mut Level, block: &mut Product, level: &Level, n: usize, side: Side)
    requires low_blocks { LowBlocks level.now × TailsEnd (sided side level.now) × (side_row side < lanes) × (n ≤ lanes) }
    requires room { (length transposed.old ≡ level_words) × (length block.old ≡ product_words) }
    requires zeros { AtMost 0 transposed.old × AtMost 0 block.old }
    ensures { SecondLaid n (sided side level.now) transposed.new block.new }
{
    let top = lay_slots(transposed, level, n);
    lay_side(block, level, n, side, top);
}
