ghost use Rattle.std.specs.Bool.{OnTrue};
ghost use Rattle.std.specs.Prelude.{◌≡◌, ◌≤◌, ◌<◌, IfOk, IsTrue, OnOk};
ghost use Rattle.sheet_refs.specs.Cells.{IsIn, Position};
ghost use Rattle.sheet_refs.specs.Rectangles.{AreDisjoint, IsAmong};
ghost use Rattle.sheet_refs.specs.Sizes.{cell_count, is_inside};
ghost use Rattle.mark_words.specs.Tokens.{IsSeatOf, subject_of, places_of, view_of};
ghost use Rattle.recalc_workers.specs.Settling.{KeepsEditor, KnowsPlace};
ghost use Rattle.live_sheet.specs.Stale.{AddsStale, IsFree, IsListedOr, KnowsAllBut, KnowsCell};
ghost use Rattle.edit_log.specs.Rows.{LieInside};

use mark_words::{Marks, Seat};
use sheet_model::SheetSubject;
use sheet_refs::{Cell, Memory, Range, Sizes};
use std::alloc::Global;

/// Whether the place was computed for its mark, by a read with the editor's seat, which then knows it.
fn is_clean<S: SheetSubject>(marks: &Marks<S>, editor: &mut Seat<S>, place: u32) -> bool
    requires table { IsSeatOf marks.now editor.old }
    requires free { IsFree editor.old }
    requires there { place < places_of marks.now }
    ensures table { IsSeatOf marks.now editor.new }
    ensures editor { KeepsEditor editor.old editor.new }
    ensures known { OnTrue result
        (KnowsPlace (S.touches (subject_of marks.now)) (view_of editor.new) place) }
{
    let clean = marks.read_clean(editor, place);
    let _word = marks.read_value(editor, place);
    let mark = marks.read_mark(editor, place);
    clean.is_for(mark)
}

/// Lists the cell, unless it is clean, which the editor's seat knows then.
pub(crate) fn list_if_stale<S: SheetSubject>(
    marks: &Marks<S>,
    editor: &mut Seat<S>,
    sizes: Sizes,
    cell: Cell,
    stale: &mut Vec<Cell>,
) -> Result<(), Memory>
    requires table { IsSeatOf marks.now editor.old }
    requires free { IsFree editor.old }
    requires places { places_of marks.now ≡ cell_count sizes }
    requires small { cell_count sizes ≤ 1048576 }
    requires inside { IsTrue (is_inside sizes cell) }
    ensures table { IsSeatOf marks.now editor.new }
    ensures editor { KeepsEditor editor.old editor.new }
    ensures listed { OnOk result (IsListedOr (KnowsCell (S.touches (subject_of marks.now)) sizes
        (view_of editor.new)) cell stale.old.items stale.new.items) }
{
    let place = sizes.place(cell) as u32;
    if is_clean(marks, editor, place) {
        return Ok(());
    }
    stale.push(cell)?;
    Ok(())
}

/// Lists the cells of a range that aren't clean, row by row.
fn list_stale_in<S: SheetSubject>(
    marks: &Marks<S>,
    editor: &mut Seat<S>,
    sizes: Sizes,
    range: Range,
    stale: &mut Vec<Cell>,
) -> Result<(), Memory>
    requires table { IsSeatOf marks.now editor.old }
    requires free { IsFree editor.old }
    requires places { places_of marks.now ≡ cell_count sizes }
    requires small { cell_count sizes ≤ 1048576 }
    requires inside { (cell : Position) → IsIn cell range → IsTrue (is_inside sizes cell) }
    ensures table { IsSeatOf marks.now editor.new }
    ensures editor { KeepsEditor editor.old editor.new }
    ensures stale { OnOk result (AddsStale (KnowsCell (S.touches (subject_of marks.now)) sizes
        (view_of editor.new)) (λ cell. IsIn cell range) stale.old.items stale.new.items) }
{
    let mut cell = range.head();
    for _place in 0..range.cells() {
        list_if_stale(marks, editor, sizes, cell, stale)?;
        cell = range.cell_behind(cell);
    }
    Ok(())
}

/// The cells of some ranges that aren't clean, each once: of the others the editor's seat knows that they are. It takes
/// three loads for each cell of the ranges, and memory in proportion to the cells that it lists.
pub(crate) fn list_stale<S: SheetSubject>(
    alloc: Global,
    marks: &Marks<S>,
    editor: &mut Seat<S>,
    sizes: Sizes,
    ranges: &[Range],
) -> Result<Vec<Cell>, Memory>
    requires table { IsSeatOf marks.now editor.old }
    requires free { IsFree editor.old }
    requires places { places_of marks.now ≡ cell_count sizes }
    requires small { cell_count sizes ≤ 1048576 }
    requires inside { LieInside sizes ranges.now }
    requires disjoint { AreDisjoint ranges.now }
    ensures table { IsSeatOf marks.now editor.new }
    ensures editor { KeepsEditor editor.old editor.new }
    ensures stale { IfOk result (λ stale. KnowsAllBut (KnowsCell (S.touches (subject_of marks.now)) sizes
        (view_of editor.new)) (IsAmong ranges.now) stale.items) }
{
    let mut stale = Vec::new(alloc);
    for range in ranges {
        list_stale_in(marks, editor, sizes, *range, &mut stale)?;
    }
    Ok(stale)
}
