ghost use Rattle.std.specs.Prelude.{◌≡◌, ◌≤◌, ◌<◌, length, OnOk};
ghost use Rattle.edit_log.specs.Rows.{IsInside};
ghost use Rattle.sheet_refs.specs.Cells.{cells_of};
ghost use Rattle.mark_words.specs.Tokens.{IsSeatOf, subject_of, log_of};
ghost use Rattle.recalc_workers.specs.Seats.{HasDoneNothing, Keeps};
ghost use Rattle.recalc_workers.specs.Settling.{AreDesksOf, Each, IsDeskAfter, KeepsEditor};
ghost use Rattle.live_sheet.specs.Firm.{IsFirmLook};
ghost use Rattle.live_sheet.specs.Held.{IsSeatIn};
ghost use Rattle.live_sheet.specs.Stale.{IsFree};
ghost use Rattle.live_sheet.specs.Worked.{AreWordsNamed};

use crate::crossing::{entries_cross, subject_crosses};
use crate::firm_cells::show_window;
use crate::live::Live;
use crate::locked::Locked;
use crate::meeting::{hear, learn};
use crate::naming::Naming;
use crate::pass::Pass;
use crate::settle_range::{opening_sizes, settle_range};
use edit_log::{Book, OverSheet};
use graph_walk::Graph;
use mark_words::{Marks, Seat};
use recalc_workers::{Desk, Gate};
use sheet_model::Board;
use sheet_refs::{Memory, Range};
use std::alloc::Global;
use std::sync::Wait;
use std::thread::Threads;

/// Lets the editor's seat hear of another seat, computes what isn't clean of a window, shows the window, and tells the
/// seat.
fn firm_for<R: Threads + Wait + Sync, G: Graph, T: Gate + Sync>(
    rt: &R,
    alloc: Global,
    book: &mut Book<G>,
    marks: &Marks<OverSheet>,
    editor: &mut Seat<OverSheet>,
    seat: &mut Seat<OverSheet>,
    window: Range,
    board: &mut Board,
    desks: &mut [Desk<OverSheet>],
    gate: &T,
) -> Result<(), Memory>
    requires subject { subject_of marks.now ≡ book.old.opening }
    requires table { IsSeatOf marks.now editor.old }
    requires free { IsFree editor.old }
    requires log { log_of editor.old ≡ book.old.log }
    requires seat { IsSeatOf marks.now seat.old }
    requires inside { IsInside book.old.opening.sizes window }
    requires room { length (cells_of window) ≤ board.old.room }
    requires desks { AreDesksOf marks.now desks.old }
    requires some { 0 < length desks.old }
    ensures book { book.new ≡ book.old }
    ensures table { IsSeatOf marks.now editor.new }
    ensures editor { KeepsEditor editor.old editor.new }
    ensures desks { Each (IsDeskAfter marks.now) desks.old desks.new }
    ensures seat { IsSeatOf marks.now seat.new }
    ensures keeps { Keeps seat.old seat.new }
    ensures idle { HasDoneNothing seat.old seat.new }
    ensures firm { OnOk result
        (IsFirmLook book.old.opening window seat.old seat.new board.old.room board.new) }
    ensures room { board.new.room ≡ board.old.room }
{
    entries_cross();
    subject_crosses();
    hear(marks, editor, seat);
    let sizes = opening_sizes(book);
    let length = book.length();
    settle_range(rt, alloc, book, marks, editor, window, desks, gate)?;
    show_window(marks, editor, sizes, length, window, board);
    learn(marks, seat, editor);
    Ok(())
}

impl<N: Naming> Locked<N> {
    /// Computes the cells of a window that aren't clean, and shows the window: the value of each cell after the log.
    /// Whatever is answered, the sheet, its graph and the log stay as they are.
    pub(crate) fn firm<R: Threads + Wait + Sync, T: Gate + Sync>(
        &mut self,
        rt: &R,
        alloc: Global,
        marks: &Marks<OverSheet>,
        seat: &mut Seat<OverSheet>,
        window: Range,
        board: &mut Board,
        gate: &T,
    ) -> Result<(), Memory>
        requires words { AreWordsNamed N.words N.opening marks.now }
        requires seat { IsSeatIn N.words N.opening seat.old }
        requires inside { IsInside N.opening.sizes window }
        requires room { length (cells_of window) ≤ board.old.room }
        ensures book { self.new.book ≡ self.old.book }
        ensures keeps { Keeps seat.old seat.new }
        ensures idle { HasDoneNothing seat.old seat.new }
        ensures firm { OnOk result
            (IsFirmLook N.opening window seat.old seat.new board.old.room board.new) }
        ensures room { board.new.room ≡ board.old.room }
    {
        let Locked {
            book,
            editor,
            desks,
            ..
        } = self;
        let desks = desks.as_mut_slice();
        firm_for(
            rt, alloc, book, marks, editor, seat, window, board, desks, gate,
        )
    }
}

impl<N: Naming> Live<N> {
    ghost use Rattle.live_sheet.specs.Firm.{IsFirmLookOf, KeepsPass};

    /// Shows the value of each cell of the window on the board, after the log, which the pass knows then: the board's
    /// number is its length, and isn't below any number that the pass saw or was told. Where a cell of the window isn't
    /// clean, what isn't clean of the window and of the cells on which it depends is computed first. The pass knows
    /// each cell of the window as clean, with its last mark in that log.
    ///
    /// It takes the lock for the whole of it: three loads a cell where the window is clean, and else the time of
    /// computing the values that aren't kept. After `Memory` the log is as it was, some cells may have been computed,
    /// and what is on the board is open.
    pub fn firm<R: Threads + Wait + Sync, T: Gate + Sync>(
        &self,
        rt: &R,
        pass: &mut Pass<N>,
        window: Range,
        board: &mut Board,
        gate: &T,
    ) -> Result<(), Memory>
        requires inside { IsInside N.opening.sizes window }
        requires room { length (cells_of window) ≤ board.old.room }
        ensures keeps { KeepsPass pass.old pass.new }
        ensures firm { OnOk result
            (IsFirmLookOf N.opening window pass.old pass.new board.old.room board.new) }
        ensures room { board.new.room ≡ board.old.room }
    {
        let seat = &mut pass.seat;
        self.locked
            .lock(rt)
            .firm(rt, self.alloc, &self.marks, seat, window, board, gate)
    }
}
