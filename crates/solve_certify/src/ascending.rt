// Up over the columns, one after another, the right side at the top, and down again.
ghost use Rattle.std.specs.Prelude.{◌≡◌};
ghost use Rattle.solve_certify.specs.Ready.{Ready, AscendedFrom};
ghost use Rattle.solve_certify.specs.Dropping.{ColumnSpanned};
ghost use Rattle.solve_certify.specs.Filling.{Fills};
ghost use Rattle.solve_certify.specs.Rising.{Leaves};

use crate::descending::descend;
use crate::witness::find_witness;
use solve_descent::lower_quotients;
use solve_lattice::{
    BLOCK, Block, INVERSES, Input, LEVEL, Level, Output, Product, SIZES, Stage, pivot_row,
};
use solve_levels::{divide_column, empty_slot, fill_slot, next_level};
use vector::clear;

// Makes a certificate in `output`, but for the numerators of the columns that are in `level`, the first of the stage; stores the
// coefficients of what is left of d b in the blocks of `level` in `quotients`, which are 0. Leaves `level` as before. Returns
// whether there is a solution. What is left of the stage's column when it is divided by the slots decides what becomes of it.
#[cycle(ascending)]
pub fn ascend(
    output: &mut Output,
    quotients: &mut Product,
    level: &mut Level,
    input: &Input,
    stage: Stage,
) -> bool
    requires { Ready stage input.now level.old quotients.old output.old }
    ensures ascended_from { AscendedFrom stage input.now level.old quotients.new output.new result }
    ensures level { level.new ≡ level.old }
{
    let column = stage.column;
    let columns = stage.columns;
    let modulus = stage.modulus;
    if column == columns {
        return find_witness(output, quotients, level, input, stage);
    }
    let mut rest = [0u64; BLOCK];
    let mut factors = [0u64; BLOCK];
    let left = divide_column(
        &mut rest,
        &mut factors,
        input,
        BLOCK * column,
        level,
        modulus,
    );
    if left == 0 {
        return drop_column(output, quotients, level, input, stage);
    }
    if level[SIZES + pivot_row(left)] == 0 {
        return fill_column(
            output,
            quotients,
            level,
            &mut rest,
            &mut factors,
            left,
            input,
            stage,
        );
    }
    insert_column(output, quotients, &mut rest, left, level, input, stage)
}

// Does what `ascend` does where nothing is left of the column: it is in the span of the columns before it, and its numerator is 0.
#[cycle(ascending)]
fn drop_column(
    output: &mut Output,
    quotients: &mut Product,
    level: &mut Level,
    input: &Input,
    stage: Stage,
) -> bool
    requires ready { Ready stage input.now level.old quotients.old output.old }
    requires column { ColumnSpanned stage level.old input.now }
    ensures ascended_from { AscendedFrom stage input.now level.old quotients.new output.new result }
    ensures level { level.new ≡ level.old }
{
    let found = ascend(output, quotients, level, input, stage.next_column());
    if found {
        clear(output, BLOCK * (1 + stage.column), BLOCK);
    }
    found
}

// Does what `ascend` does where `left` words are left of the column, in `rest`, and their slot is empty: they fill it for as long
// as the columns behind it take.
#[cycle(ascending)]
fn fill_column(
    output: &mut Output,
    quotients: &mut Product,
    level: &mut Level,
    rest: &mut Block,
    factors: &mut Block,
    left: usize,
    input: &Input,
    stage: Stage,
) -> bool
    requires ready { Ready stage input.now level.old quotients.old output.old }
    requires column { Fills stage level.old input.now rest.old factors.old left }
    ensures ascended_from { AscendedFrom stage input.now level.old quotients.new output.new result }
    ensures level { level.new ≡ level.old }
{
    let modulus = stage.modulus;
    let q = pivot_row(left);
    let inverse = level[INVERSES + q];
    fill_slot(level, q, rest, left, modulus);
    let found = ascend(output, quotients, level, input, stage.next_column());
    empty_slot(level, q, inverse);
    if found {
        let column = stage.column;
        lower_quotients(output, quotients, factors, q, BLOCK * (1 + column), modulus);
    }
    found
}

// Does what `ascend` does where `left` words are left of the column, in `rest`, and their slot is longer: they are inserted into a
// copy of the level, with a kernel.
#[cycle(ascending)]
fn insert_column(
    output: &mut Output,
    quotients: &mut Product,
    rest: &mut Block,
    left: usize,
    level: &Level,
    input: &Input,
    stage: Stage,
) -> bool
    requires ready { Ready stage input.now level.now quotients.old output.old }
    requires column { Leaves stage level.now input.now rest.old left }
    ensures { AscendedFrom stage input.now level.now quotients.new output.new result }
{
    let modulus = stage.modulus;
    let mut upper = [0u64; LEVEL];
    let mut kernel = [0u64; BLOCK];
    let size = next_level(&mut upper, &mut kernel, rest, left, level, modulus);
    let found = ascend(output, quotients, &mut upper, input, stage.next_column());
    if found {
        descend(
            output, quotients, level, &upper, &kernel, size, input, stage,
        );
    }
    found
}
