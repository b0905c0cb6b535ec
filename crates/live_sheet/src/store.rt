ghost use Rattle.std.specs.Bool.{OnTrue};
ghost use Rattle.std.specs.Prelude.{◌≡◌, ◌≤◌, IfOk, IfSome, length};
ghost use Rattle.mark_words.specs.Tokens.{IsSeatOf, doing_of, log_of, seen_of};
ghost use Rattle.recalc_workers.specs.Offices.{IsTaskFor, TellsCycle};
ghost use Rattle.recalc_workers.specs.Seats.{HasDoneNothing, Keeps};
ghost use Rattle.live_sheet.specs.Held.{IsSeatIn};
ghost use Rattle.live_sheet.specs.Opened.{IsNewSeat};
ghost use Rattle.live_sheet.specs.Stored.{HasCaughtUp};
ghost use Rattle.live_sheet.specs.Worked.{AreWordsNamed};

use crate::crossing::{entries_cross, subject_crosses};
use crate::naming::Naming;
use crate::slots::{empty_slots, find};
use crate::stored::Stored;
use edit_log::OverSheet;
use mark_core::Subject;
use mark_words::{Marks, Seat};
use recalc_workers::Task;
use sheet_refs::{Cell, Memory};
use std::alloc::Global;
use std::marker::{Model, PhantomData};

/// What a worker knows of some cells from the times that it had the lock: a seat that met the editor's then, the length
/// of its log, and slots for cells. What a slot has counts only while that is the number of entries, so an edit clears
/// nothing.
#[derive(Drop)]
pub(crate) struct Store<N: Naming> {
    pub(crate) seat: Seat<OverSheet>,
    pub(crate) count: u64,
    pub(crate) slots: Vec<Option<Stored>>,
    pub(crate) of: PhantomData<N>,
}

impl<N: Naming> Model for Store<N> {
    ghost use Rattle.live_sheet.specs.Stored.{IsStore};

    ghost Value = { Unit {0} };

    ghost view = { λ s. tt };

    ghost invariant = { λ s. IsStore N.words N.opening s.seat s.count s.slots.items };
}

/// The count of commits, which the seat has seen then.
fn count_seen<S: Subject>(marks: &Marks<S>, seat: &mut Seat<S>) -> u64
    requires table { IsSeatOf marks.now seat.old }
    ensures table { IsSeatOf marks.now seat.new }
    ensures keeps { Keeps seat.old seat.new }
    ensures idle { HasDoneNothing seat.old seat.new }
    ensures log { log_of seat.new ≡ log_of seat.old }
    ensures covers { seen_of seat.old ≤ result }
    ensures known { length (log_of seat.old) ≤ result }
{
    marks.see(seat)
}

/// Lets a seat know the log of another one, unless an edit came since: then the answer is false.
fn catch_up<S: Subject>(
    marks: &Marks<S>,
    other: &mut Seat<S>,
    count: u64,
    seat: &mut Seat<S>,
) -> bool
    requires other { IsSeatOf marks.now other.old }
    requires table { IsSeatOf marks.now seat.old }
    requires count { count ≡ length (log_of other.old) }
    ensures other { IsSeatOf marks.now other.new }
    ensures kept { doing_of other.new ≡ doing_of other.old }
    ensures keeps { Keeps seat.old seat.new }
    ensures idle { HasDoneNothing seat.old seat.new }
    ensures caught { OnTrue result (HasCaughtUp seat.old other.old seat.new) }
{
    if count_seen(marks, seat) != count {
        return false;
    }
    marks.meet(seat, other);
    true
}

impl<N: Naming> Store<N> {
    /// An empty store, with 256 slots for each of so many workers, at most 2,048.
    pub(crate) fn new(
        alloc: Global,
        seat: Seat<OverSheet>,
        workers: u32,
    ) -> Result<Store<N>, Memory>
        requires belongs { IsSeatIn N.words N.opening seat }
        requires new { IsNewSeat seat }
    {
        let slots = empty_slots(alloc, workers.min(8) as usize * 256)?;
        Ok(Store {
            seat,
            count: 0,
            slots,
            of: PhantomData,
        })
    }

    /// The task of a cell, where it is stored and no edit came since.
    pub(crate) fn task(
        &mut self,
        marks: &Marks<OverSheet>,
        cell: Cell,
        seat: &mut Seat<OverSheet>,
    ) -> Result<Option<Task>, Memory>
        requires words { AreWordsNamed N.words N.opening marks.now }
        requires seat { IsSeatIn N.words N.opening seat.old }
        ensures keeps { Keeps seat.old seat.new }
        ensures idle { HasDoneNothing seat.old seat.new }
        ensures task { IfOk result (λ task. IfSome task (IsTaskFor N.opening seat.old cell seat.new)) }
    {
        entries_cross();
        subject_crosses();
        let length = self.count;
        let Some(stored) = find(&self.slots, cell, length) else {
            return Ok(None);
        };
        if !catch_up(marks, &mut self.seat, length, seat) {
            return Ok(None);
        }
        let content = stored.content.copy()?;
        Ok(Some(Task { content, length }))
    }

    /// That a cell isn't on a cycle, where that is stored and no edit came since.
    pub(crate) fn circular(
        &mut self,
        marks: &Marks<OverSheet>,
        cell: Cell,
        seat: &mut Seat<OverSheet>,
    ) -> Option<bool>
        requires words { AreWordsNamed N.words N.opening marks.now }
        requires seat { IsSeatIn N.words N.opening seat.old }
        ensures keeps { Keeps seat.old seat.new }
        ensures idle { HasDoneNothing seat.old seat.new }
        ensures circular { IfSome result (TellsCycle N.opening cell seat.new) }
    {
        entries_cross();
        subject_crosses();
        let stored = find(&self.slots, cell, self.count)?;
        if stored.may_be_on_cycle || !catch_up(marks, &mut self.seat, self.count, seat) {
            return None;
        }
        Some(false)
    }
}
