ghost use Rattle.std.specs.Prelude.{◌≡◌, ◌<◌, ◌≤◌, length, All, IfOk, OnOk};
ghost use Rattle.sheet_refs.specs.Cells.{IsIn, Position};
ghost use Rattle.sheet_refs.specs.Sizes.{cell_count};
ghost use Rattle.mark_words.specs.Tokens.{IsSeatOf, subject_of, places_of, view_of, log_of};
ghost use Rattle.sheet_model.specs.KeptValues.{HoldsValue, KeepsValuesOf};
ghost use Rattle.sheet_model.specs.Sheets.{IsSheet};
ghost use Rattle.edit_log.specs.Books.{IsBook};
ghost use Rattle.edit_log.specs.Rows.{IsInside};
ghost use Rattle.edit_log.specs.Touches.{TouchesPlace};
ghost use Rattle.recalc_workers.specs.Settling.{AreDesksOf, AreInside, Each, IsDeskAfter, IsEditorOf};
ghost use Rattle.recalc_workers.specs.Settling.{KeepsEditor, KnowsCells};
ghost use Rattle.live_sheet.specs.Stale.{IsFree, KnowsCell};

use crate::crossing::{entries_cross, subject_crosses};
use crate::stale::{list_if_stale, list_stale};
use edit_log::{Book, OverSheet};
use graph_walk::Graph;
use mark_words::{Marks, Seat};
use recalc_workers::{Desk, Gate, settle_values};
use sheet_model::{KeptValues, Sheet, SheetSubject};
use sheet_refs::{Cell, Memory, Range, Sizes};
use std::alloc::Global;
use std::sync::Wait;
use std::thread::Threads;

/// The sizes of the opening sheet, which are those of the sheet.
pub(crate) fn opening_sizes<G: Graph>(book: &Book<G>) -> Sizes
    ensures sizes { result ≡ book.now.opening.sizes }
    ensures small { cell_count result ≤ 1048576 }
    ensures same { book.now.sheet.sizes ≡ book.now.opening.sizes }
    ensures sheet { IsSheet book.now.sheet }
    ensures kept { IsBook G.pairs book.now }
{
    book.sheet().sizes()
}

/// Computes the values of some cells, which are kept then.
fn compute(values: &mut KeptValues, sheet: &Sheet, cells: &[Cell]) -> Result<(), Memory>
    requires kept { KeepsValuesOf sheet.now values.old }
    requires inside { AreInside sheet.now.sizes cells.now }
    ensures kept { OnOk result (KeepsValuesOf sheet.now values.new) }
    ensures held { OnOk result (All (HoldsValue sheet.now.sizes values.new) cells.now) }
{
    for cell in cells {
        let _value = values.value(sheet, *cell)?;
    }
    Ok(())
}

/// Puts the values of some cells, which are kept, at the desks side by side.
fn put<R: Threads + Wait + Sync, S: SheetSubject, T: Gate + Sync>(
    rt: &R,
    marks: &Marks<S>,
    editor: &mut Seat<S>,
    sheet: &Sheet,
    values: &KeptValues,
    cells: &[Cell],
    desks: &mut [Desk<S>],
    gate: &T,
) -> Result<(), Memory>
    requires editor { IsEditorOf marks.now (S.opening (subject_of marks.now)) sheet.now editor.old }
    requires kept { KeepsValuesOf sheet.now values.now }
    requires inside { AreInside sheet.now.sizes cells.now }
    requires held { All (HoldsValue sheet.now.sizes values.now) cells.now }
    requires desks { AreDesksOf marks.now desks.old }
    requires some { 0 < length desks.old }
    ensures table { IsSeatOf marks.now editor.new }
    ensures editor { KeepsEditor editor.old editor.new }
    ensures desks { Each (IsDeskAfter marks.now) desks.old desks.new }
    ensures clean { OnOk result (KnowsCells (S.touches (subject_of marks.now)) sheet.now.sizes
        (view_of editor.new) cells.now) }
{
    settle_values(rt, marks, editor, sheet, values.codes(), cells, desks, gate)
}

/// Lists the cell where its value is kept, unless it is clean.
fn list_if_kept<S: SheetSubject>(
    marks: &Marks<S>,
    editor: &mut Seat<S>,
    sheet: &Sheet,
    values: &KeptValues,
    cell: Cell,
    stale: &mut Vec<Cell>,
) -> Result<(), Memory>
    requires table { IsSeatOf marks.now editor.old }
    requires free { IsFree editor.old }
    requires places { places_of marks.now ≡ cell_count sheet.now.sizes }
    requires kept { KeepsValuesOf sheet.now values.now }
    requires inside { AreInside sheet.now.sizes stale.old.items }
    requires held { All (HoldsValue sheet.now.sizes values.now) stale.old.items }
    ensures table { IsSeatOf marks.now editor.new }
    ensures editor { KeepsEditor editor.old editor.new }
    ensures inside { OnOk result (AreInside sheet.now.sizes stale.new.items) }
    ensures held { OnOk result (All (HoldsValue sheet.now.sizes values.now) stale.new.items) }
{
    if values.holds(sheet, cell) {
        return list_if_stale(marks, editor, sheet.sizes(), cell, stale);
    }
    Ok(())
}

/// Of the cells whose values were found on the way to those of others, the ones that aren't clean.
fn stale_found<S: SheetSubject>(
    alloc: Global,
    marks: &Marks<S>,
    editor: &mut Seat<S>,
    sheet: &Sheet,
    values: &KeptValues,
) -> Result<Vec<Cell>, Memory>
    requires table { IsSeatOf marks.now editor.old }
    requires free { IsFree editor.old }
    requires places { places_of marks.now ≡ cell_count sheet.now.sizes }
    requires kept { KeepsValuesOf sheet.now values.now }
    ensures table { IsSeatOf marks.now editor.new }
    ensures editor { KeepsEditor editor.old editor.new }
    ensures inside { IfOk result (λ cells. AreInside sheet.now.sizes cells.items) }
    ensures held { IfOk result (λ cells. All (HoldsValue sheet.now.sizes values.now) cells.items) }
{
    let mut stale = Vec::new(alloc);
    for cell in values.found() {
        list_if_kept(marks, editor, sheet, values, *cell, &mut stale)?;
    }
    Ok(stale)
}

/// Computes the values of some cells, and puts them, and those that were found on the way to them, where they aren't
/// clean. The values are handed back.
fn put_values<R: Threads + Wait + Sync, S: SheetSubject, T: Gate + Sync>(
    rt: &R,
    alloc: Global,
    marks: &Marks<S>,
    editor: &mut Seat<S>,
    sheet: &Sheet,
    values: KeptValues,
    cells: &[Cell],
    desks: &mut [Desk<S>],
    gate: &T,
) -> Result<KeptValues, Memory>
    requires editor { IsEditorOf marks.now (S.opening (subject_of marks.now)) sheet.now editor.old }
    requires places { places_of marks.now ≡ cell_count sheet.now.sizes }
    requires kept { KeepsValuesOf sheet.now values }
    requires inside { AreInside sheet.now.sizes cells.now }
    requires desks { AreDesksOf marks.now desks.old }
    requires some { 0 < length desks.old }
    ensures table { IsSeatOf marks.now editor.new }
    ensures editor { KeepsEditor editor.old editor.new }
    ensures desks { Each (IsDeskAfter marks.now) desks.old desks.new }
    ensures kept { IfOk result (KeepsValuesOf sheet.now) }
    ensures clean { OnOk result (KnowsCells (S.touches (subject_of marks.now)) sheet.now.sizes
        (view_of editor.new) cells.now) }
{
    let mut values = values;
    compute(&mut values, sheet, cells)?;
    put(rt, marks, editor, sheet, &values, cells, desks, gate)?;
    let found = stale_found(alloc, marks, editor, sheet, &values)?;
    put(rt, marks, editor, sheet, &values, &found, desks, gate)?;
    values.clear_found();
    Ok(values)
}

/// Computes the cells of a range of the sheet that aren't clean, and the stale ones on which these depend. The editor's
/// seat then knows each cell of the range as clean. The book keeps the values, so the next call computes only what an
/// edit touched in between.
///
/// Whatever is answered, the book is as it was, that seat keeps its log and loses nothing that it knew, no place is
/// held by a desk, and the hands are as they were. After `Memory` some cells may have been computed.
///
/// It takes three loads for each cell of the range. Where some aren't clean it takes the time of `KeptValues::value`
/// for these, and then a claim, a put and a finish for each of them and for each stale cell whose value was found on
/// the way, shared among the desks.
pub(crate) fn settle_range<R: Threads + Wait + Sync, G: Graph, T: Gate + Sync>(
    rt: &R,
    alloc: Global,
    book: &mut Book<G>,
    marks: &Marks<OverSheet>,
    editor: &mut Seat<OverSheet>,
    range: Range,
    desks: &mut [Desk<OverSheet>],
    gate: &T,
) -> Result<(), Memory>
    requires subject { subject_of marks.now ≡ book.old.opening }
    requires table { IsSeatOf marks.now editor.old }
    requires free { IsFree editor.old }
    requires log { log_of editor.old ≡ book.old.log }
    requires inside { IsInside book.old.opening.sizes range }
    requires desks { AreDesksOf marks.now desks.old }
    requires some { 0 < length desks.old }
    ensures book { book.new ≡ book.old }
    ensures table { IsSeatOf marks.now editor.new }
    ensures editor { KeepsEditor editor.old editor.new }
    ensures desks { Each (IsDeskAfter marks.now) desks.old desks.new }
    ensures clean { OnOk result ((cell : Position) → IsIn cell range
        → KnowsCell (TouchesPlace book.old.opening) book.old.opening.sizes (view_of editor.new) cell) }
{
    entries_cross();
    subject_crosses();
    let sizes = opening_sizes(book);
    let stale = list_stale(alloc, marks, editor, sizes, &[range])?;
    if stale.is_empty() {
        return Ok(());
    }
    let values = book.take_values()?;
    let sheet = book.sheet();
    let values = put_values(rt, alloc, marks, editor, sheet, values, &stale, desks, gate)?;
    book.keep_values(values);
    Ok(())
}
