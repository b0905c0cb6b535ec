ghost use Rattle.std.specs.Prelude.{◌≡◌, ◌≢◌, ◌≤◌, length, All, IfOk};
ghost use Rattle.sheet_refs.specs.Sizes.{cell_count};
ghost use Rattle.mark_words.specs.Tokens.{IsSeatOf, subject_of, log_of, seen_of};
ghost use Rattle.sheet_model.specs.Logs.{after};
ghost use Rattle.sheet_model.specs.Sheets.{IsSheetSize};
ghost use Rattle.recalc_workers.specs.Desks.{seat_of};
ghost use Rattle.recalc_workers.specs.Settling.{AreInside, WorksAt};
ghost use Rattle.recalc_workers.specs.Visits.{KnowsFinished};
ghost use Rattle.live_sheet.specs.Held.{IsSeatIn};
ghost use Rattle.live_sheet.specs.Slices.{HasLookedOn, IsClear, IsValued};
ghost use Rattle.live_sheet.specs.Worked.{AreWordsNamed};

use crate::crossing::{entries_cross, subject_crosses};
use crate::desk::Desk;
use crate::left::Left;
use crate::live::Live;
use crate::locked::Locked;
use crate::naming::Naming;
use crate::round::{Seen, look_round};
use crate::settle_range::opening_sizes;
use crate::valuing::{Valued, values_of};
use edit_log::OverSheet;
use mark_words::Marks;
use recalc_workers::{Desk as WorkerDesk, Gate, put_once, tell_desk};
use sheet_model::SheetSubject;
use sheet_refs::{Cell, Memory, Sizes};
use std::alloc::Global;
use std::sync::Wait;

/// Cells with the codes of their values, after so many entries.
#[derive(Drop)]
pub(crate) struct Slice {
    pub(crate) valued: Vec<Valued>,
    pub(crate) count: u64,
}

impl<N: Naming> Locked<N> {
    /// Lets the desk know the log, and answers how many entries it has.
    fn tell_worker(&mut self, marks: &Marks<OverSheet>, desk: &mut WorkerDesk<OverSheet>) -> u64
        requires words { AreWordsNamed N.words N.opening marks.now }
        requires seat { IsSeatIn N.words N.opening (seat_of desk.old) }
        ensures book { self.new.book ≡ self.old.book }
        ensures sizes { IsSheetSize N.opening.sizes }
        ensures looked { HasLookedOn desk.old desk.new }
        ensures log { log_of (seat_of desk.new) ≡ self.new.book.log }
        ensures covers { seen_of (seat_of desk.old) ≤ length self.new.book.log }
        ensures count { result ≡ length (log_of (seat_of desk.new)) }
    {
        entries_cross();
        subject_crosses();
        let _ = opening_sizes(&self.book);
        tell_desk(marks, &mut self.editor, desk);
        self.book.length()
    }

    /// Lets the desk know the log, and goes on towards the values of some cells after it.
    fn slice(
        &mut self,
        alloc: Global,
        marks: &Marks<OverSheet>,
        desk: &mut WorkerDesk<OverSheet>,
        cells: &[Cell],
    ) -> Result<Slice, Memory>
        requires words { AreWordsNamed N.words N.opening marks.now }
        requires seat { IsSeatIn N.words N.opening (seat_of desk.old) }
        requires inside { AreInside N.opening.sizes cells.now }
        ensures book { self.new.book ≡ self.old.book }
        ensures looked { HasLookedOn desk.old desk.new }
        ensures valued { IfOk result
            (λ slice. All (IsValued (after N.opening (log_of (seat_of desk.new)))) slice.valued.items) }
        ensures count { IfOk result (λ slice. slice.count ≡ length (log_of (seat_of desk.new))) }
    {
        let count = self.tell_worker(marks, desk);
        let valued = values_of(alloc, &mut self.book, cells)?;
        Ok(Slice { valued, count })
    }
}

/// Puts the codes, one cell after the other.
fn put_all<S: SheetSubject, T: Gate>(
    marks: &Marks<S>,
    desk: &mut WorkerDesk<S>,
    sizes: Sizes,
    slice: &Slice,
    gate: &T,
)
    requires table { IsSeatOf marks.now (seat_of desk.old) }
    requires sizes { sizes ≡ (S.opening (subject_of marks.now)).sizes }
    requires small { cell_count sizes ≤ 1048576 }
    requires count { slice.now.count ≡ length (log_of (seat_of desk.old)) }
    requires valued { All (IsValued (after (S.opening (subject_of marks.now)) (log_of (seat_of desk.old))))
        slice.now.valued.items }
    ensures table { IsSeatOf marks.now (seat_of desk.new) }
    ensures works { WorksAt desk.old desk.new }
    ensures finished { KnowsFinished (S.touches (subject_of marks.now)) (seat_of desk.old) (seat_of desk.new) }
{
    for valued in &slice.valued {
        let _ = put_once(
            marks,
            desk,
            sizes,
            valued.cell,
            valued.word,
            slice.count,
            gate,
        );
    }
}

impl<N: Naming> Live<N> {
    ghost use Rattle.live_sheet.specs.declared.left.Left.TheVariants as left;
    ghost use Rattle.live_sheet.specs.Slices.{HasSettledAt, HasSliced};
    ghost use Rattle.live_sheet.specs.Worked.{KeepsSeat};

    /// Lets the desk know the log, and looks for stale cells.
    fn look_for_stale<R: Wait>(
        &self,
        rt: &R,
        desk: &mut Desk<N>,
        from: &mut usize,
    ) -> Result<Seen, Memory>
        ensures looked { HasLookedOn desk.old.desk desk.new.desk }
        ensures inside { IfOk result (λ seen. AreInside N.opening.sizes seen.stale.items) }
        ensures settled { IfOk result (λ seen. IsClear seen → HasSettledAt N.opening desk.old desk.new) }
    {
        entries_cross();
        subject_crosses();
        let count = self
            .locked
            .lock(rt)
            .tell_worker(&self.marks, &mut desk.desk);
        look_round(
            self.alloc,
            &self.marks,
            &mut desk.desk,
            self.sizes(),
            count,
            from,
        )
    }

    /// Computes some of these cells, and puts their values.
    fn compute_some<R: Wait, T: Gate>(
        &self,
        rt: &R,
        desk: &mut Desk<N>,
        cells: &[Cell],
        gate: &T,
    ) -> Left
        requires inside { AreInside N.opening.sizes cells.now }
        ensures keeps { KeepsSeat desk.old desk.new }
        ensures sliced { HasSliced N.opening desk.old desk.new }
        ensures some { result ≢ left.Nothing }
    {
        entries_cross();
        subject_crosses();
        let made = self
            .locked
            .lock(rt)
            .slice(self.alloc, &self.marks, &mut desk.desk, cells);
        let Ok(slice) = made else {
            return Left::Memory;
        };
        put_all(&self.marks, &mut desk.desk, self.sizes(), &slice, gate);
        Left::Some
    }

    /// One slice of a worker that has no job: computes some cells that aren't clean, and puts their values. Each cell
    /// that it computed the desk's seat knows as clean then; where the answer is that nothing is left it knows each
    /// cell of the sheet so, over a log that isn't shorter than what it had seen. The desk's hand, the log, the sheet
    /// and its graph stay as they are.
    ///
    /// It looks for stale cells from a place on, row by row and round, and leaves there the place at which it ended. It
    /// ends once 256 stale cells are found, or one and 65,536 cells were looked at. The lock is held while it goes on
    /// towards their values, by at most 4,096 steps of `KeptValues::value_within`, and for a moment ahead of the look;
    /// not while it looks, claims and puts. A walk that isn't at its end goes on in the next slice of any worker. The
    /// values are put one cell at a time, inputs first, with the gate told of each; a cell that another seat holds, or
    /// that a later entry marked, is passed over. It waits for nobody but the lock.
    pub fn settle_slice<R: Wait, T: Gate>(
        &self,
        rt: &R,
        desk: &mut Desk<N>,
        from: &mut usize,
        gate: &T,
    ) -> Left
        ensures keeps { KeepsSeat desk.old desk.new }
        ensures sliced { HasSliced N.opening desk.old desk.new }
        ensures nothing { result ≡ left.Nothing → HasSettledAt N.opening desk.old desk.new }
    {
        let Ok(seen) = self.look_for_stale(rt, desk, from) else {
            return Left::Memory;
        };
        if !seen.stale.is_empty() {
            return self.compute_some(rt, desk, &seen.stale, gate);
        }
        if seen.held {
            return Left::Held;
        }
        Left::Nothing
    }
}
