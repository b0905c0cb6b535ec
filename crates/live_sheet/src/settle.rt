ghost use Rattle.std.specs.Prelude.{◌≡◌, ◌<◌, length, OnOk};
ghost use Rattle.mark_words.specs.Tokens.{IsSeatOf, subject_of, log_of};
ghost use Rattle.recalc_workers.specs.Seats.{HasDoneNothing, Keeps};
ghost use Rattle.recalc_workers.specs.Settling.{AreDesksOf, Each, IsDeskAfter, KeepsEditor};
ghost use Rattle.live_sheet.specs.Firm.{HasSettled};
ghost use Rattle.live_sheet.specs.Held.{IsSeatIn};
ghost use Rattle.live_sheet.specs.Stale.{IsFree};
ghost use Rattle.live_sheet.specs.Worked.{AreWordsNamed};

use crate::crossing::{entries_cross, subject_crosses};
use crate::live::Live;
use crate::locked::Locked;
use crate::meeting::{hear, learn};
use crate::naming::Naming;
use crate::pass::Pass;
use crate::whole::settle_whole;
use edit_log::{Book, OverSheet};
use graph_walk::Graph;
use mark_words::{Marks, Seat};
use recalc_workers::{Desk, Gate};
use sheet_refs::Memory;
use std::alloc::Global;
use std::sync::Wait;
use std::thread::Threads;

/// Lets the editor's seat hear of another seat, computes all cells that aren't clean, and tells the seat.
fn settle_for<R: Threads + Wait + Sync, G: Graph, T: Gate + Sync>(
    rt: &R,
    alloc: Global,
    book: &mut Book<G>,
    marks: &Marks<OverSheet>,
    editor: &mut Seat<OverSheet>,
    seat: &mut Seat<OverSheet>,
    desks: &mut [Desk<OverSheet>],
    gate: &T,
) -> Result<(), Memory>
    requires subject { subject_of marks.now ≡ book.old.opening }
    requires table { IsSeatOf marks.now editor.old }
    requires free { IsFree editor.old }
    requires log { log_of editor.old ≡ book.old.log }
    requires seat { IsSeatOf marks.now seat.old }
    requires desks { AreDesksOf marks.now desks.old }
    requires some { 0 < length desks.old }
    ensures book { book.new ≡ book.old }
    ensures table { IsSeatOf marks.now editor.new }
    ensures editor { KeepsEditor editor.old editor.new }
    ensures desks { Each (IsDeskAfter marks.now) desks.old desks.new }
    ensures seat { IsSeatOf marks.now seat.new }
    ensures keeps { Keeps seat.old seat.new }
    ensures idle { HasDoneNothing seat.old seat.new }
    ensures settled { OnOk result (HasSettled book.old.opening seat.old seat.new) }
{
    entries_cross();
    subject_crosses();
    hear(marks, editor, seat);
    settle_whole(rt, alloc, book, marks, editor, desks, gate)?;
    learn(marks, seat, editor);
    Ok(())
}

impl<N: Naming> Locked<N> {
    /// Computes all cells of the sheet that aren't clean, of which the seat knows then. Whatever is answered, the
    /// sheet, its graph and the log stay as they are.
    pub(crate) fn settle<R: Threads + Wait + Sync, T: Gate + Sync>(
        &mut self,
        rt: &R,
        alloc: Global,
        marks: &Marks<OverSheet>,
        seat: &mut Seat<OverSheet>,
        gate: &T,
    ) -> Result<(), Memory>
        requires words { AreWordsNamed N.words N.opening marks.now }
        requires seat { IsSeatIn N.words N.opening seat.old }
        ensures book { self.new.book ≡ self.old.book }
        ensures keeps { Keeps seat.old seat.new }
        ensures idle { HasDoneNothing seat.old seat.new }
        ensures settled { OnOk result (HasSettled N.opening seat.old seat.new) }
    {
        let Locked {
            book,
            editor,
            desks,
            ..
        } = self;
        let desks = desks.as_mut_slice();
        settle_for(rt, alloc, book, marks, editor, seat, desks, gate)
    }
}

impl<N: Naming> Live<N> {
    ghost use Rattle.live_sheet.specs.Firm.{HasSettledBy, KeepsPass};

    /// Computes all cells of the sheet that aren't clean. The pass then knows the log, which isn't shorter than any
    /// number that it saw or was told, and each cell of the sheet as clean, with its last mark in that log.
    ///
    /// It takes the lock for the whole of it. After `Memory` the log is as it was, and some cells may have been
    /// computed.
    pub fn settle<R: Threads + Wait + Sync, T: Gate + Sync>(
        &self,
        rt: &R,
        pass: &mut Pass<N>,
        gate: &T,
    ) -> Result<(), Memory>
        ensures keeps { KeepsPass pass.old pass.new }
        ensures settled { OnOk result (HasSettledBy N.opening pass.old pass.new) }
    {
        let seat = &mut pass.seat;
        self.locked
            .lock(rt)
            .settle(rt, self.alloc, &self.marks, seat, gate)
    }
}
