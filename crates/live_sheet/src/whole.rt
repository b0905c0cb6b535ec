ghost use Rattle.std.specs.Prelude.{◌≡◌, ◌<◌, ◌↔◌, length, IsTrue, OnOk, MatchOption};
ghost use Rattle.sheet_refs.specs.Cells.{IsIn, Position};
ghost use Rattle.sheet_refs.specs.Sizes.{is_inside};
ghost use Rattle.mark_words.specs.Tokens.{IsSeatOf, subject_of, view_of, log_of};
ghost use Rattle.edit_log.specs.Touches.{TouchesPlace};
ghost use Rattle.recalc_workers.specs.Settling.{AreDesksOf, Each, IsDeskAfter, KeepsEditor};
ghost use Rattle.sheet_model.specs.Sheets.{IsSheetSize};
ghost use Rattle.live_sheet.specs.Ranges.{KnowsAll};
ghost use Rattle.live_sheet.specs.Stale.{IsFree};

use crate::crossing::{entries_cross, subject_crosses};
use crate::settle_range::{opening_sizes, settle_range};
use edit_log::{Book, OverSheet};
use graph_walk::Graph;
use mark_words::{Marks, Seat};
use recalc_workers::{Desk, Gate};
use sheet_refs::{Cell, Memory, Range, Sizes};
use std::alloc::Global;
use std::sync::Wait;
use std::thread::Threads;

/// The range of all cells; None where there is none.
fn whole(sizes: Sizes) -> Option<Range>
    requires { IsSheetSize sizes }
    ensures { MatchOption result ((cell : Position) → ¬ IsTrue (is_inside sizes cell))
        (λ range. (cell : Position) → IsIn cell range ↔ IsTrue (is_inside sizes cell)) }
{
    let first = Cell::new(1, 1)?;
    match Cell::new(sizes.rows, sizes.cols) {
        Some(last) => Some(Range::of(first, last)),
        None => None,
    }
}

/// Computes all cells of the sheet that aren't clean, as `settle_range` does.
pub(crate) fn settle_whole<R: Threads + Wait + Sync, G: Graph, T: Gate + Sync>(
    rt: &R,
    alloc: Global,
    book: &mut Book<G>,
    marks: &Marks<OverSheet>,
    editor: &mut Seat<OverSheet>,
    desks: &mut [Desk<OverSheet>],
    gate: &T,
) -> Result<(), Memory>
    requires subject { subject_of marks.now ≡ book.old.opening }
    requires table { IsSeatOf marks.now editor.old }
    requires free { IsFree editor.old }
    requires log { log_of editor.old ≡ book.old.log }
    requires desks { AreDesksOf marks.now desks.old }
    requires some { 0 < length desks.old }
    ensures book { book.new ≡ book.old }
    ensures table { IsSeatOf marks.now editor.new }
    ensures editor { KeepsEditor editor.old editor.new }
    ensures desks { Each (IsDeskAfter marks.now) desks.old desks.new }
    ensures clean { OnOk result (KnowsAll (TouchesPlace book.old.opening) book.old.opening.sizes
        (view_of editor.new)) }
{
    entries_cross();
    subject_crosses();
    match whole(opening_sizes(book)) {
        None => Ok(()),
        Some(range) => settle_range(rt, alloc, book, marks, editor, range, desks, gate),
    }
}
