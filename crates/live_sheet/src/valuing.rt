ghost use Rattle.std.specs.Prelude.{◌≡◌, All, IfOk, IsTrue, OnOk};
ghost use Rattle.sheet_refs.specs.Sizes.{is_inside};
ghost use Rattle.edit_log.specs.Books.{IsBook};
ghost use Rattle.recalc_workers.specs.Settling.{AreInside};
ghost use Rattle.sheet_model.specs.KeptValues.{HoldsValue, KeepsValuesOf};
ghost use Rattle.sheet_model.specs.Values.{HasCode, value_of};
ghost use Rattle.value_core.specs.Values.{code_of};
ghost use Rattle.live_sheet.specs.Slices.{IsValued};

use crate::settle_range::opening_sizes;
use edit_log::Book;
use graph_walk::Graph;
use sheet_model::{KeptValues, Sheet};
use sheet_refs::{Cell, Memory};
use std::alloc::Global;

/// The steps of the walk to values that one slice takes.
const STEPS: u32 = 4_096;

/// A cell, with the code of its value.
#[derive(Clone, Copy)]
pub(crate) struct Valued {
    pub(crate) cell: Cell,
    pub(crate) word: u64,
}

/// Goes on towards the values of some cells, one after the other, as far as the steps of a slice reach.
fn go_on(values: &mut KeptValues, sheet: &Sheet, cells: &[Cell]) -> Result<(), Memory>
    requires kept { KeepsValuesOf sheet.now values.old }
    requires inside { AreInside sheet.now.sizes cells.now }
    ensures kept { OnOk result (KeepsValuesOf sheet.now values.new) }
{
    let mut steps = STEPS;
    for cell in cells {
        if !values.value_within(sheet, *cell, &mut steps)? {
            return Ok(());
        }
    }
    Ok(())
}

/// The code at a cell's place.
fn code_in(sheet: &Sheet, codes: &[u64], cell: Cell) -> u64
    requires inside { IsTrue (is_inside sheet.now.sizes cell) }
    requires code { HasCode sheet.now codes.now cell }
    ensures code { code_of (value_of sheet.now cell) ≡ result }
{
    codes[sheet.place(cell)]
}

/// A cell whose value is kept, with the code of it.
fn valued_at(sheet: &Sheet, values: &KeptValues, cell: Cell) -> Valued
    requires kept { KeepsValuesOf sheet.now values.now }
    requires inside { IsTrue (is_inside sheet.now.sizes cell) }
    requires held { HoldsValue sheet.now.sizes values.now cell }
    ensures valued { IsValued sheet.now result }
{
    let word = code_in(sheet, values.codes(), cell);
    Valued { cell, word }
}

/// Lists a cell whose value is kept.
fn list_one(
    sheet: &Sheet,
    values: &KeptValues,
    cell: Cell,
    valued: &mut Vec<Valued>,
) -> Result<(), Memory>
    requires kept { KeepsValuesOf sheet.now values.now }
    requires inside { IsTrue (is_inside sheet.now.sizes cell) }
    requires held { HoldsValue sheet.now.sizes values.now cell }
    requires valued { All (IsValued sheet.now) valued.old.items }
    ensures valued { OnOk result (All (IsValued sheet.now) valued.new.items) }
{
    let one = valued_at(sheet, values, cell);
    valued.push(one)?;
    Ok(())
}

/// Lists the cell with the code of its value, where that is kept.
fn list_if_kept(
    sheet: &Sheet,
    values: &KeptValues,
    cell: Cell,
    valued: &mut Vec<Valued>,
) -> Result<(), Memory>
    requires kept { KeepsValuesOf sheet.now values.now }
    requires valued { All (IsValued sheet.now) valued.old.items }
    ensures valued { OnOk result (All (IsValued sheet.now) valued.new.items) }
{
    if values.holds(sheet, cell) {
        return list_one(sheet, values, cell, valued);
    }
    Ok(())
}

/// Lists those of some cells whose values are kept.
fn list_kept(
    sheet: &Sheet,
    values: &KeptValues,
    cells: &[Cell],
    valued: &mut Vec<Valued>,
) -> Result<(), Memory>
    requires kept { KeepsValuesOf sheet.now values.now }
    requires valued { All (IsValued sheet.now) valued.old.items }
    ensures valued { OnOk result (All (IsValued sheet.now) valued.new.items) }
{
    for cell in cells {
        list_if_kept(sheet, values, *cell, valued)?;
    }
    Ok(())
}

/// Goes on towards the values of some cells. Lists with its value each cell whose value was found on the way, in
/// order of being found, and then those of the cells. The values are handed back.
fn list_found(
    alloc: Global,
    sheet: &Sheet,
    values: KeptValues,
    cells: &[Cell],
) -> Result<(KeptValues, Vec<Valued>), Memory>
    requires kept { KeepsValuesOf sheet.now values }
    requires inside { AreInside sheet.now.sizes cells.now }
    ensures kept { IfOk result (λ r. KeepsValuesOf sheet.now r.0) }
    ensures valued { IfOk result (λ r. All (IsValued sheet.now) r.1.items) }
{
    let mut values = values;
    go_on(&mut values, sheet, cells)?;
    let mut valued = Vec::new(alloc);
    list_kept(sheet, &values, values.found(), &mut valued)?;
    list_kept(sheet, &values, cells, &mut valued)?;
    values.clear_found();
    Ok((values, valued))
}

/// Goes on towards the values of some cells of the book's sheet, by at most 4,096 steps, of which the last may be the
/// evaluation of a formula of any length. Lists those whose values are kept then, inputs first. The book keeps the
/// values, and cells that wait for others; after `Memory` it goes on without.
pub(crate) fn values_of<G: Graph>(
    alloc: Global,
    book: &mut Book<G>,
    cells: &[Cell],
) -> Result<Vec<Valued>, Memory>
    requires inside { AreInside book.old.opening.sizes cells.now }
    ensures book { book.new ≡ book.old }
    ensures valued { IfOk result (λ valued. All (IsValued book.old.sheet) valued.items) }
    ensures kept { IsBook G.pairs book.new }
{
    let _ = opening_sizes(book);
    let values = book.take_values()?;
    let sheet = book.sheet();
    let (values, valued) = list_found(alloc, sheet, values, cells)?;
    book.keep_values(values);
    Ok(valued)
}
