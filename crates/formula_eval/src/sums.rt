ghost use Rattle.std.specs.Prelude.{◌≡◌, ◌<◌, ◌≤◌, ◌+◌, ◌^◌, IfOk, IfErr, Err, []};
ghost use Rattle.std.specs.Prelude.{◌∷◌};
ghost use Rattle.formula_syntax.specs.declared.functions.Function.TheVariants.{Sum as SumOf};
ghost use Rattle.formula_eval.specs.Blocks.{AreRows, IsInRectangle, block_of};
ghost use Rattle.formula_eval.specs.Functions.{contributions};
ghost use Rattle.formula_eval.specs.Inputs.{IsPlainRange};
ghost use Rattle.formula_eval.specs.Items.{items_of_cells};
ghost use Rattle.formula_eval.specs.Sums.{AddsWords, IsFirstError, tally_of};
ghost use Rattle.formula_eval.specs.Tallies.{AddsItems, IsBounded, TalliesOneMore};
ghost use Rattle.formula_eval.specs.Views.{seen_items};
ghost use Rattle.formula_eval.specs.declared.cells.View.TheVariants.{All};

use crate::cells::value_at;
use crate::inputs::Inputs;
use crate::lines::with_line;
use crate::ranges::{cols_of, rows_of};
use crate::scan::sizes;
use crate::tally::{Running, Tally};
use sheet_refs::Range;
use value_core::{ErrorKind, Value, Whole};

/// The tally of a sum, by its two numbers alone, so that they stay in registers in the loop over a range: most ranges
/// are read for their sums.
#[derive(Clone, Copy)]
pub(crate) struct Sum {
    pub(crate) total: i128,
    pub(crate) count: u64,
}

impl Sum {
    /// The tally that it stands for.
    pub(crate) fn tally(self) -> Tally
        ensures { result ≡ tally_of self }
    {
        Tally {
            count: self.count,
            running: Running::Sum(self.total),
        }
    }

    // The sum with one more number.
    #[inline(always)]
    fn with(self, number: Whole) -> Sum
        requires bounded { IsBounded (tally_of self) }
        requires room { self.count < 2 ^ 60 }
        ensures tallies { TalliesOneMore (tally_of self) number (tally_of result) }
        ensures bounded { IsBounded (tally_of result) }
        ensures count { result.count ≡ self.count + 1 }
    {
        Sum {
            total: self.total + i128::from(number.get()),
            count: self.count + 1,
        }
    }

    // The sum with one more cell of a range: only a number adds to it, and an error is handed on.
    #[inline(always)]
    pub(crate) fn with_cell(self, value: Value) -> Result<Sum, ErrorKind>
        requires bounded { IsBounded (tally_of self) }
        requires room { self.count < 2 ^ 60 }
        ensures ok { IfOk result
            (λ more. AddsItems SumOf (tally_of self) (tally_of more) (items_of_cells (value ∷ []))) }
        ensures err { IfErr result
            (λ kind. contributions SumOf (items_of_cells (value ∷ [])) ≡ Err kind) }
    {
        match &value {
            Value::Number(number) => Ok(self.with(*number)),
            Value::Error(kind) => Err(*kind),
            Value::Empty | Value::Truth(_) | Value::Label(_) => Ok(self),
        }
    }
}

/// The sum with the cells of a range, row by row, up to the first error. It looks at each cell of the rectangle once,
/// or twice where there are others than numbers beside it; cells past it take no time.
pub(crate) fn add_range<I: Inputs>(inputs: &I, range: Range, sum: Sum) -> Result<Sum, ErrorKind>
    requires plain { IsPlainRange (I.sizes inputs.now) (I.codes inputs.now) range }
    requires bounded { IsBounded (tally_of sum) }
    requires room { sum.count < 2 ^ 59 }
    ensures ok { IfOk result (λ more. AddsItems SumOf (tally_of sum) (tally_of more)
        (seen_items (I.sizes inputs.now) (I.codes inputs.now) All range)) }
    ensures few { IfOk result (λ more. more.count ≤ sum.count + 17179869184) }
    ensures err { IfErr result (λ kind. contributions SumOf
        (seen_items (I.sizes inputs.now) (I.codes inputs.now) All range) ≡ Err kind) }
{
    let Some(part) = sizes(inputs).clip(range) else {
        return Ok(sum);
    };
    add_part(inputs, part, sum)
}

// The same of a range of the rectangle.
fn add_part<I: Inputs>(inputs: &I, part: Range, sum: Sum) -> Result<Sum, ErrorKind>
    requires inside { IsInRectangle (I.sizes inputs.now) part }
    requires plain { IsPlainRange (I.sizes inputs.now) (I.codes inputs.now) part }
    requires bounded { IsBounded (tally_of sum) }
    requires room { sum.count < 2 ^ 59 }
    ensures ok { IfOk result (λ more. AddsItems SumOf (tally_of sum) (tally_of more)
        (seen_items (I.sizes inputs.now) (I.codes inputs.now) All part)) }
    ensures few { IfOk result (λ more. more.count ≤ sum.count + 17179869184) }
    ensures err { IfErr result (λ kind. contributions SumOf
        (seen_items (I.sizes inputs.now) (I.codes inputs.now) All part) ≡ Err kind) }
{
    let rows = rows_of(part) as usize;
    let cols = cols_of(part) as usize;
    match inputs.block(part) {
        Some(block) => add_block(block.words, block.step, rows, cols, sum),
        None => add_each(inputs, part, sum),
    }
}

// The same, cell by cell.
fn add_each<I: Inputs>(inputs: &I, part: Range, sum: Sum) -> Result<Sum, ErrorKind>
    requires inside { IsInRectangle (I.sizes inputs.now) part }
    requires plain { IsPlainRange (I.sizes inputs.now) (I.codes inputs.now) part }
    requires bounded { IsBounded (tally_of sum) }
    requires room { sum.count < 2 ^ 59 }
    ensures ok { IfOk result (λ more. AddsItems SumOf (tally_of sum) (tally_of more)
        (seen_items (I.sizes inputs.now) (I.codes inputs.now) All part)) }
    ensures few { IfOk result (λ more. more.count ≤ sum.count + 17179869184) }
    ensures err { IfErr result (λ kind. contributions SumOf
        (seen_items (I.sizes inputs.now) (I.codes inputs.now) All part) ≡ Err kind) }
{
    let mut more = sum;
    let mut cell = part.head();
    for _place in 0..part.cells() {
        more = more.with_cell(value_at(inputs, cell))?;
        cell = part.cell_behind(cell);
    }
    Ok(more)
}

// The sum with so many rows of words, each a step behind the one above it. Rows of one word are one line.
fn add_block(
    words: &[u64],
    step: usize,
    rows: usize,
    cols: usize,
    sum: Sum,
) -> Result<Sum, ErrorKind>
    requires rows { AreRows words.now step rows cols }
    requires high { rows ≤ 1048576 }
    requires some { 1 ≤ cols }
    requires wide { cols ≤ 16384 }
    requires bounded { IsBounded (tally_of sum) }
    requires room { sum.count < 2 ^ 59 }
    ensures ok { IfOk result (AddsWords sum (block_of words.now 0 step rows cols)) }
    ensures few { IfOk result (λ more. more.count ≤ sum.count + 17179869184) }
    ensures err { IfErr result (IsFirstError (block_of words.now 0 step rows cols)) }
{
    if cols == 1 {
        return with_line(words, 0, step, rows, sum);
    }
    add_rows(words, step, rows, cols, sum)
}

// The same, row by row.
fn add_rows(
    words: &[u64],
    step: usize,
    rows: usize,
    cols: usize,
    sum: Sum,
) -> Result<Sum, ErrorKind>
    requires rows { AreRows words.now step rows cols }
    requires high { rows ≤ 1048576 }
    requires some { 1 ≤ cols }
    requires wide { cols ≤ 16384 }
    requires bounded { IsBounded (tally_of sum) }
    requires room { sum.count < 2 ^ 59 }
    ensures ok { IfOk result (AddsWords sum (block_of words.now 0 step rows cols)) }
    ensures few { IfOk result (λ more. more.count ≤ sum.count + 17179869184) }
    ensures err { IfErr result (IsFirstError (block_of words.now 0 step rows cols)) }
{
    let mut more = sum;
    for row in 0..rows {
        more = with_line(words, row * step, 1, cols, more)?;
    }
    Ok(more)
}
