ghost use Rattle.std.specs.Prelude.{◌≡◌, ◌<◌, ◌≤◌, ◌+◌, ◌^◌, IsTrue, OnOk, IfErr, Err, []};
ghost use Rattle.std.specs.Prelude.{◌∷◌};
ghost use Rattle.sheet_refs.specs.Sizes.{is_inside};
ghost use Rattle.sheet_refs.specs.Cells.{IsIn};
ghost use Rattle.formula_eval.specs.Functions.{contributions, equals as equals_number};
ghost use Rattle.formula_eval.specs.Inputs.{IsPlain, IsPlainRange, IsKnownPlain, seen_values};
ghost use Rattle.formula_eval.specs.Items.{items_of_cells};
ghost use Rattle.formula_eval.specs.Tallies.{AddsItems, IsBounded};
ghost use Rattle.formula_eval.specs.Views.{HaveSameSizes, IsViewAt, IsViewOf, seen_items};
ghost use Rattle.formula_eval.specs.Views.{looked, partner_of};
ghost use Rattle.formula_eval.specs.declared.cells.View.TheVariants.{Where};

use crate::inputs::Inputs;
use crate::items::Item;
use crate::scan::sizes;
use crate::sums::{Sum, add_range};
use crate::tally::{Running, Tally, add};
use formula_syntax::Function;
use sheet_refs::{Cell, Range};
use value_core::{ErrorKind, Value, Whole, decode};

/// The value of a cell of the rectangle. It is a part of the loops over the cells of a range.
#[inline(always)]
pub(crate) fn value_at<I: Inputs>(inputs: &I, cell: Cell) -> Value
    requires inside { IsTrue (is_inside (I.sizes inputs.now) cell) }
    requires known { IsKnownPlain (I.codes inputs.now) cell }
    ensures { result ≡ seen_values (I.sizes inputs.now) (I.codes inputs.now) cell }
{
    let word = inputs.get(cell).unwrap();
    decode(word).unwrap()
}

/// The value of a cell; one past the rectangle is empty.
pub(crate) fn value_or_empty<I: Inputs>(inputs: &I, cell: Cell) -> Value
    requires { IsPlain (I.sizes inputs.now) (I.codes inputs.now) cell }
    ensures { result ≡ seen_values (I.sizes inputs.now) (I.codes inputs.now) cell }
{
    if sizes(inputs).holds(cell) {
        value_at(inputs, cell)
    } else {
        Value::Empty
    }
}

/// What a walk over a range takes of a cell.
#[derive(Clone, Copy)]
pub(crate) enum View {
    /// Its value.
    All,
    /// Where it is a number that equals this one, the value of the cell at its place in another range than the one
    /// that is walked, or in the same; and else nothing.
    Where(Whole, Range, Range),
}

/// Whether a value is a number and equals one.
pub(crate) fn equals(number: Whole, value: Value) -> bool
    ensures { result ≡ equals_number number value }
{
    match &value {
        Value::Number(other) => other.get() == number.get(),
        Value::Empty | Value::Truth(_) | Value::Error(_) | Value::Label(_) => false,
    }
}

// The cell of one range at the place of a cell of another.
fn partner(from: Range, to: Range, cell: Cell) -> Cell
    requires inside { IsIn cell from }
    requires sizes { HaveSameSizes from to }
    ensures partner { result ≡ partner_of from to cell }
    ensures inside { IsIn result to }
{
    let row = to.head().row() + (cell.row() - from.head().row());
    let col = to.head().col() + (cell.col() - from.head().col());
    Cell::new(row, col).unwrap()
}

fn value_where<I: Inputs>(inputs: &I, number: Whole, from: Range, to: Range, cell: Cell) -> Value
    requires inside { IsTrue (is_inside (I.sizes inputs.now) cell) }
    requires known { IsKnownPlain (I.codes inputs.now) cell }
    requires among { IsIn cell from }
    requires sizes { HaveSameSizes from to }
    requires plain { IsPlainRange (I.sizes inputs.now) (I.codes inputs.now) to }
    ensures { result ≡ looked (Where number from to)
        (seen_values (I.sizes inputs.now) (I.codes inputs.now)) cell }
{
    if equals(number, value_at(inputs, cell)) {
        value_or_empty(inputs, partner(from, to, cell))
    } else {
        Value::Empty
    }
}

// What is taken of a cell of the rectangle. It is a part of the loop over the cells of a range.
#[inline(always)]
fn look<I: Inputs>(inputs: &I, view: &View, cell: Cell) -> Value
    requires inside { IsTrue (is_inside (I.sizes inputs.now) cell) }
    requires known { IsKnownPlain (I.codes inputs.now) cell }
    requires view { IsViewAt (I.sizes inputs.now) (I.codes inputs.now) cell view.now }
    ensures { result ≡ looked view.now
        (seen_values (I.sizes inputs.now) (I.codes inputs.now)) cell }
{
    match view {
        View::All => value_at(inputs, cell),
        View::Where(number, from, to) => value_where(inputs, *number, *from, *to, cell),
    }
}

/// Adds what a view takes of the cells of a range to the sequence of a function, row by row, up to the first
/// error that is handed on. It looks at each cell of the rectangle once; cells past it take no time.
pub(crate) fn add_cells<I: Inputs>(
    inputs: &I,
    function: Function,
    view: &View,
    range: Range,
    tally: &mut Tally,
) -> Result<(), ErrorKind>
    requires plain { IsPlainRange (I.sizes inputs.now) (I.codes inputs.now) range }
    requires view { IsViewOf (I.sizes inputs.now) (I.codes inputs.now) range view.now }
    requires bounded { IsBounded tally.old }
    requires room { tally.old.count < 2 ^ 59 }
    ensures ok { OnOk result (AddsItems function tally.old tally.new
        (seen_items (I.sizes inputs.now) (I.codes inputs.now) view.now range)) }
    ensures few { OnOk result (tally.new.count ≤ tally.old.count + 17179869184) }
    ensures err { IfErr result (λ kind. contributions function
        (seen_items (I.sizes inputs.now) (I.codes inputs.now) view.now range) ≡ Err kind) }
{
    match (view, function, &tally.running) {
        (View::All, Function::Sum, Running::Sum(total)) => {
            let sum = Sum {
                total: *total,
                count: tally.count,
            };
            *tally = add_range(inputs, range, sum)?.tally();
            Ok(())
        }
        _ => add_seen(inputs, function, view, range, tally),
    }
}

// The same for every view and function.
fn add_seen<I: Inputs>(
    inputs: &I,
    function: Function,
    view: &View,
    range: Range,
    tally: &mut Tally,
) -> Result<(), ErrorKind>
    requires plain { IsPlainRange (I.sizes inputs.now) (I.codes inputs.now) range }
    requires view { IsViewOf (I.sizes inputs.now) (I.codes inputs.now) range view.now }
    requires bounded { IsBounded tally.old }
    requires room { tally.old.count < 2 ^ 59 }
    ensures ok { OnOk result (AddsItems function tally.old tally.new
        (seen_items (I.sizes inputs.now) (I.codes inputs.now) view.now range)) }
    ensures few { OnOk result (tally.new.count ≤ tally.old.count + 17179869184) }
    ensures err { IfErr result (λ kind. contributions function
        (seen_items (I.sizes inputs.now) (I.codes inputs.now) view.now range) ≡ Err kind) }
{
    let Some(part) = sizes(inputs).clip(range) else {
        return Ok(());
    };
    let mut cell = part.head();
    for _place in 0..part.cells() {
        let value = look(inputs, view, cell);
        add_cell(function, value, tally)?;
        cell = part.cell_behind(cell);
    }
    Ok(())
}

// Adds one cell of a range; an empty one adds nothing.
fn add_cell(function: Function, value: Value, tally: &mut Tally) -> Result<(), ErrorKind>
    requires bounded { IsBounded tally.old }
    requires room { tally.old.count < 2 ^ 60 }
    ensures ok { OnOk result (AddsItems function tally.old tally.new (items_of_cells (value ∷ []))) }
    ensures err { IfErr result
        (λ kind. contributions function (items_of_cells (value ∷ [])) ≡ Err kind) }
{
    match &value {
        Value::Empty => Ok(()),
        _ => add(function, Item::Cell(value), tally),
    }
}
