ghost use Rattle.std.specs.Prelude.{◌≡◌, ◌<◌, ◌≤◌, true, length, All, OnOk};
ghost use Rattle.std.specs.Thread.{IsSync};
ghost use Rattle.mark_words.specs.Tokens.{IsSeatOf, subject_of, view_of, log_of, is_editor};
ghost use Rattle.recalc_workers.specs.Settling.{AllSettledShares, AreDesksOf, Each, HasSettledShare};
ghost use Rattle.recalc_workers.specs.Settling.{IsCovered, IsDeskAfter, IsLevelOf, KeepsEditor, KnowsCells};
ghost use Rattle.recalc_workers.specs.Settling.{MaySettle};

use crate::cell_words::CellWords;
use crate::crossing::entries_cross;
use crate::desk::Desk;
use crate::gates::Gate;
use crate::settle_cells::{Level, settle_share};
use crate::sharing::{gather_all, lend_all};
use crate::side_by_side::side_by_side;
use mark_words::{Marks, Seat};
use sheet_model::SheetSubject;
use sheet_refs::{Cell, Memory, Sizes};
use std::sync::Wait;
use std::thread::Threads;

/// The fewest cells of a level for which one more thread is worth its start: about as many cells are cleared while a
/// thread is started and waited for.
const CELLS_OF_A_THREAD: usize = 1_024;

/// How many of the desks work on a level with so many cells: as many as it has parts that are worth a thread, so one
/// on a level of few cells, and all on a level of many.
fn busy_desks(cells: usize, desks: usize) -> usize
    requires { 0 < desks }
    ensures some { 0 < result }
    ensures few { result ≤ desks }
{
    (cells / CELLS_OF_A_THREAD).max(1).min(desks)
}

/// Clears the level at the desks side by side, a share at each.
fn settle_shares<R: Threads + Wait + Sync, S: SheetSubject, W: CellWords + Sync, G: Gate + Sync>(
    rt: &R,
    marks: &Marks<S>,
    words: &W,
    level: Level<'_>,
    size: usize,
    desks: &mut [Desk<S>],
    gate: &G,
)
    requires some { 0 < length desks.old }
    requires level { IsLevelOf (S.opening (subject_of marks.now)) level.sizes level.cells.now }
    requires ready { All (MaySettle marks.now level.cells.now level.count
        (IsCovered (S.opening (subject_of marks.now)) (W.sheet words.now) (W.covers words.now))) desks.old }
    ensures count { length desks.new ≡ length desks.old }
    ensures shares { AllSettledShares marks.now (S.touches (subject_of marks.now))
        level.entry.sizes level.entry.cells.now size desks.old desks.new }
{
    entries_cross();
    side_by_side(
        rt,
        &|number: usize, desk: &mut Desk<S>|
            requires { IsSync R.row
                × IsLevelOf (S.opening (subject_of marks.now)) level.sizes level.cells.now
                × MaySettle marks.now level.cells.now level.count
                (IsCovered (S.opening (subject_of marks.now)) (W.sheet words.now) (W.covers words.now)) desk.now }
            ensures { HasSettledShare marks.entry.now (S.touches (subject_of marks.entry.now))
                level.entry.sizes level.entry.cells.now size number
                desk.entry.now desk.exit.now }
        { settle_share(rt, marks, words, level, size, number, desk, gate) },
        desks,
    );
}

/// Clears the level at all these desks, and lets the editor's seat know.
fn settle_at<R: Threads + Wait + Sync, S: SheetSubject, W: CellWords + Sync, G: Gate + Sync>(
    rt: &R,
    marks: &Marks<S>,
    editor: &mut Seat<S>,
    words: &W,
    level: Level<'_>,
    desks: &mut [Desk<S>],
    gate: &G,
) -> Result<(), Memory>
    requires some { 0 < length desks.old }
    requires table { IsSeatOf marks.now editor.old }
    requires editor { is_editor editor.old ≡ true }
    requires level { IsLevelOf (S.opening (subject_of marks.now)) level.sizes level.cells.now }
    requires entries { level.count ≡ length (log_of editor.old) }
    requires covered { All (IsCovered (S.opening (subject_of marks.now)) (W.sheet words.now) (W.covers words.now)
        (view_of editor.old))
        level.cells.now }
    requires desks { AreDesksOf marks.now desks.old }
    ensures table { IsSeatOf marks.now editor.new }
    ensures editor { KeepsEditor editor.old editor.new }
    ensures desks { Each (IsDeskAfter marks.now) desks.old desks.new }
    ensures clean { OnOk result (KnowsCells (S.touches (subject_of marks.now)) level.entry.sizes
        (view_of editor.new) level.entry.cells.now) }
{
    entries_cross();
    let size = level.cells.len().div_ceil(desks.len());
    lend_all(marks, editor, desks);
    settle_shares(rt, marks, words, level, size, desks, gate);
    if gather_all(marks, editor, desks) {
        return Err(Memory);
    }
    Ok(())
}

/// Clears the level at as many of the desks as it is worth, and lets the editor's seat know.
pub(crate) fn settle<
    R: Threads + Wait + Sync,
    S: SheetSubject,
    W: CellWords + Sync,
    G: Gate + Sync,
>(
    rt: &R,
    marks: &Marks<S>,
    editor: &mut Seat<S>,
    words: &W,
    sizes: Sizes,
    cells: &[Cell],
    desks: &mut [Desk<S>],
    gate: &G,
) -> Result<(), Memory>
    requires some { 0 < length desks.old }
    requires table { IsSeatOf marks.now editor.old }
    requires editor { is_editor editor.old ≡ true }
    requires level { IsLevelOf (S.opening (subject_of marks.now)) sizes cells.now }
    requires covered { All (IsCovered (S.opening (subject_of marks.now)) (W.sheet words.now) (W.covers words.now)
        (view_of editor.old))
        cells.now }
    requires desks { AreDesksOf marks.now desks.old }
    ensures table { IsSeatOf marks.now editor.new }
    ensures editor { KeepsEditor editor.old editor.new }
    ensures desks { Each (IsDeskAfter marks.now) desks.old desks.new }
    ensures clean { OnOk result (KnowsCells (S.touches (subject_of marks.now)) sizes
        (view_of editor.new) cells.now) }
{
    entries_cross();
    let count = marks.see(editor);
    let level = Level {
        sizes,
        cells,
        count,
    };
    let busy = busy_desks(cells.len(), desks.len());
    settle_at(rt, marks, editor, words, level, &mut desks[..busy], gate)
}
