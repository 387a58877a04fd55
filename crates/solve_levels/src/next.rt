// The next level: a column inserted into a copy of a level.
ghost use Rattle.std.specs.Prelude.{◌≡◌, length};
ghost use Rattle.vector.specs.Bound.{AtMost};
ghost use Rattle.solve_lattice.specs.Room.{tail_words, level_words};
ghost use Rattle.solve_lattice.specs.Memory.{memory, ValidLevel};
ghost use Rattle.solve_levels.specs.Begun.{ValidColumn};
ghost use Rattle.solve_levels.specs.Started.{Started};
ghost use Rattle.solve_levels.specs.Next.{NextLevel};

use crate::beginning::lay_hand;
use crate::column::insert_column;
use crate::copying::copy_level;
use residue::modulus::Modulus;
use solve_lattice::{Block, Hand, Level, TAIL, Tail};

// Copies `level`, with tails 0, to `next`, and makes a hand of the first `size` words of `column`, with tail 1 in `tail`. Both,
// `next` and `tail`, are 0. Returns what the hand is.
pub fn start_column(
    next: &mut Level,
    tail: &mut Tail,
    level: &Level,
    column: &Block,
    size: usize,
    modulus: Modulus,
) -> Hand
    requires level { ValidLevel modulus.p level.now }
    requires column { ValidColumn modulus.p column.now size }
    requires next { (length next.old ≡ level_words) × AtMost 0 next.old }
    requires tail { (length tail.old ≡ tail_words) × AtMost 0 tail.old }
    ensures { Started modulus.p level.now
        (memory next.new column.now tail.new result) }
{
    copy_level(next, level);
    lay_hand(tail, column, size, modulus)
}

// Makes the next level in `next`, which is 0: `level` with `column` inserted, of which `size` words count; and stores the kernel of
// the column. What is then in `column` is left open. Returns the size of the kernel.
pub fn next_level(
    next: &mut Level,
    kernel: &mut Block,
    column: &mut Block,
    size: usize,
    level: &Level,
    modulus: Modulus,
) -> usize
    requires level { ValidLevel modulus.p level.now }
    requires column { ValidColumn modulus.p column.old size }
    requires next { (length next.old ≡ level_words) × AtMost 0 next.old }
    ensures { NextLevel modulus.p level.now column.old next.new
        kernel.new result }
{
    let mut tail = [0u64; TAIL];
    let hand = start_column(next, &mut tail, level, column, size, modulus);
    insert_column(kernel, next, column, &mut tail, hand, modulus)
}
