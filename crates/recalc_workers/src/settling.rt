ghost use Rattle.std.specs.Prelude.{◌<◌, length, All, OnOk};
ghost use Rattle.std.specs.Thread.{IsSync};
ghost use Rattle.mark_words.specs.Tokens.{IsSeatOf, subject_of, view_of};
ghost use Rattle.sheet_model.specs.Budget.{LeadsIntoCycle};
ghost use Rattle.sheet_model.specs.Values.{HasCode, IsInput};
ghost use Rattle.recalc_workers.specs.Settling.{AreDesksOf, AreInside, Each, IsDeskAfter};
ghost use Rattle.recalc_workers.specs.Settling.{IsEditorOf, KeepsEditor, KnowsCells, KnowsInputs};

use crate::cell_words::{FromInputs, FromValues, OnCycles};
use crate::desk::Desk;
use crate::gates::Gate;
use crate::levels::settle;
use mark_words::{Marks, Seat};
use sheet_model::{Sheet, SheetSubject, log_laws};
use sheet_refs::{Cell, Memory};
use std::sync::Wait;
use std::thread::Threads;

// A type whose values threads may share is one by its values.
fn may_be_shared<T: Sync>()
    ensures { IsSync T.row }
{}

/// Computes the cells of a level, of each of which the editor's seat knows the inputs as clean: it knows the cells so
/// afterwards. The sheet is that of the editor's log.
///
/// The desks share the level in contiguous parts and work side by side, each in a thread of its own; on a level of
/// fewer than 2,048 cells one desk works, and no thread is started. A cell that another seat holds is waited for, and
/// so is an input or a cell that a later entry marked. `Memory` only where a desk wants room for the words of a cell's
/// inputs; cells may have been computed then. Whatever is answered, the editor's seat keeps its log and loses nothing
/// that it knew, no place is held by a desk, and the hands are as they were.
pub fn settle_level<R: Threads + Wait + Sync, S: SheetSubject, G: Gate + Sync>(
    rt: &R,
    marks: &Marks<S>,
    editor: &mut Seat<S>,
    sheet: &Sheet,
    level: &[Cell],
    desks: &mut [Desk<S>],
    gate: &G,
) -> Result<(), Memory>
    requires editor { IsEditorOf marks.now (S.opening (subject_of marks.now)) sheet.now editor.old }
    requires inside { AreInside sheet.now.sizes level.now }
    requires inputs { All (KnowsInputs (S.touches (subject_of marks.now)) sheet.now (view_of editor.old))
        level.now }
    requires desks { AreDesksOf marks.now desks.old }
    requires some { 0 < length desks.old }
    ensures table { IsSeatOf marks.now editor.new }
    ensures editor { KeepsEditor editor.old editor.new }
    ensures desks { Each (IsDeskAfter marks.now) desks.old desks.new }
    ensures clean { OnOk result (KnowsCells (S.touches (subject_of marks.now)) sheet.now.sizes
        (view_of editor.new) level.now) }
{
    log_laws();
    may_be_shared::<Sheet>();
    let sizes = sheet.sizes();
    settle(
        rt,
        marks,
        editor,
        &FromInputs { sheet },
        sizes,
        level,
        desks,
        gate,
    )
}

/// The same of cells each of which leads into a cycle: it puts `#CIRC!` there.
pub fn settle_circular<R: Threads + Wait + Sync, S: SheetSubject, G: Gate + Sync>(
    rt: &R,
    marks: &Marks<S>,
    editor: &mut Seat<S>,
    sheet: &Sheet,
    level: &[Cell],
    desks: &mut [Desk<S>],
    gate: &G,
) -> Result<(), Memory>
    requires editor { IsEditorOf marks.now (S.opening (subject_of marks.now)) sheet.now editor.old }
    requires inside { AreInside sheet.now.sizes level.now }
    requires cycles { All (LeadsIntoCycle (IsInput sheet.now)) level.now }
    requires desks { AreDesksOf marks.now desks.old }
    requires some { 0 < length desks.old }
    ensures table { IsSeatOf marks.now editor.new }
    ensures editor { KeepsEditor editor.old editor.new }
    ensures desks { Each (IsDeskAfter marks.now) desks.old desks.new }
    ensures clean { OnOk result (KnowsCells (S.touches (subject_of marks.now)) sheet.now.sizes
        (view_of editor.new) level.now) }
{
    log_laws();
    may_be_shared::<Sheet>();
    let sizes = sheet.sizes();
    settle(
        rt,
        marks,
        editor,
        &OnCycles { sheet },
        sizes,
        level,
        desks,
        gate,
    )
}

/// The same of cells whose values were computed: the code of each is at the cell's place, row by row, and what is at
/// other places means nothing. It puts these codes there and reads no input, so the cells come in any order.
pub fn settle_values<R: Threads + Wait + Sync, S: SheetSubject, G: Gate + Sync>(
    rt: &R,
    marks: &Marks<S>,
    editor: &mut Seat<S>,
    sheet: &Sheet,
    codes: &[u64],
    cells: &[Cell],
    desks: &mut [Desk<S>],
    gate: &G,
) -> Result<(), Memory>
    requires editor { IsEditorOf marks.now (S.opening (subject_of marks.now)) sheet.now editor.old }
    requires inside { AreInside sheet.now.sizes cells.now }
    requires codes { All (HasCode sheet.now codes.now) cells.now }
    requires desks { AreDesksOf marks.now desks.old }
    requires some { 0 < length desks.old }
    ensures table { IsSeatOf marks.now editor.new }
    ensures editor { KeepsEditor editor.old editor.new }
    ensures desks { Each (IsDeskAfter marks.now) desks.old desks.new }
    ensures clean { OnOk result (KnowsCells (S.touches (subject_of marks.now)) sheet.now.sizes
        (view_of editor.new) cells.now) }
{
    log_laws();
    may_be_shared::<Sheet>();
    let sizes = sheet.sizes();
    settle(
        rt,
        marks,
        editor,
        &FromValues { sheet, codes },
        sizes,
        cells,
        desks,
        gate,
    )
}
