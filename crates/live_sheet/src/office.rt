ghost use Rattle.std.specs.Prelude.{◌≡◌, ◌≤◌, length, IfOk, IsTrue};
ghost use Rattle.sheet_refs.specs.Sizes.{is_inside};
ghost use Rattle.mark_words.specs.Tokens.{log_of, seen_of};
ghost use Rattle.recalc_workers.specs.Offices.{IsTaskFor, TellsCycle};
ghost use Rattle.recalc_workers.specs.Seats.{HasDoneNothing, Keeps};
ghost use Rattle.live_sheet.specs.Held.{IsSeatIn};
ghost use Rattle.live_sheet.specs.Worked.{AreWordsNamed};

use crate::crossing::{entries_cross, subject_crosses};
use crate::live::Live;
use crate::locked::Locked;
use crate::meeting::{hear, learn};
use crate::naming::Naming;
use crate::store::Store;
use edit_log::{OverSheet, pair_laws};
use mark_words::{Marks, Seat};
use recalc_workers::{Office, Task};
use sheet_refs::{Cell, Memory};
use std::sync::{Mutex, Wait};

impl<N: Naming> Locked<N> {
    /// Lets the seat know what the editor's seat knows: the log, which isn't shorter than what the seat had seen.
    fn lend(&mut self, marks: &Marks<OverSheet>, seat: &mut Seat<OverSheet>)
        requires words { AreWordsNamed N.words N.opening marks.now }
        requires seat { IsSeatIn N.words N.opening seat.old }
        ensures book { self.new.book ≡ self.old.book }
        ensures keeps { Keeps seat.old seat.new }
        ensures idle { HasDoneNothing seat.old seat.new }
        ensures log { log_of seat.new ≡ self.new.book.log }
        ensures covers { seen_of seat.old ≤ length self.new.book.log }
    {
        entries_cross();
        subject_crosses();
        hear(marks, &mut self.editor, seat);
        learn(marks, seat, &mut self.editor);
    }

    /// Lets a store know what stands in the cell and in those behind it.
    fn stock(
        &mut self,
        marks: &Marks<OverSheet>,
        cell: Cell,
        store: &mut Store<N>,
    ) -> Result<(), Memory>
        requires words { AreWordsNamed N.words N.opening marks.now }
        requires cell { IsTrue (is_inside N.opening.sizes cell) }
        ensures book { self.new.book ≡ self.old.book }
    {
        entries_cross();
        subject_crosses();
        store.stock(marks, &mut self.editor, &self.book, cell)
    }

    /// The same where it is known without a walk that the cell is on no cycle: then the store learns it of the next
    /// cells too.
    fn stock_where_off(
        &mut self,
        marks: &Marks<OverSheet>,
        cell: Cell,
        store: &mut Store<N>,
    ) -> Result<(), Memory>
        requires words { AreWordsNamed N.words N.opening marks.now }
        requires cell { IsTrue (is_inside N.opening.sizes cell) }
        ensures book { self.new.book ≡ self.old.book }
    {
        if self.book.may_be_on_cycle(cell) {
            return Ok(());
        }
        self.stock(marks, cell, store)
    }

    /// What stands in the cell, after the log, which the seat knows then, and the store too.
    fn job(
        &mut self,
        marks: &Marks<OverSheet>,
        cell: Cell,
        seat: &mut Seat<OverSheet>,
        store: &mut Store<N>,
    ) -> Result<Task, Memory>
        requires words { AreWordsNamed N.words N.opening marks.now }
        requires cell { IsTrue (is_inside N.opening.sizes cell) }
        requires seat { IsSeatIn N.words N.opening seat.old }
        ensures book { self.new.book ≡ self.old.book }
        ensures keeps { Keeps seat.old seat.new }
        ensures idle { HasDoneNothing seat.old seat.new }
        ensures task { IfOk result (IsTaskFor N.opening seat.old cell seat.new) }
    {
        self.stock(marks, cell, store)?;
        self.lend(marks, seat);
        let length = self.book.length();
        let sheet = self.book.sheet();
        let _ = sheet.sizes();
        let content = sheet.content(cell).copy()?;
        Ok(Task { content, length })
    }

    /// Whether the cell is on a cycle, after the log, which the seat knows then.
    fn circular(
        &mut self,
        marks: &Marks<OverSheet>,
        cell: Cell,
        seat: &mut Seat<OverSheet>,
        store: &mut Store<N>,
    ) -> Result<bool, Memory>
        requires words { AreWordsNamed N.words N.opening marks.now }
        requires cell { IsTrue (is_inside N.opening.sizes cell) }
        requires seat { IsSeatIn N.words N.opening seat.old }
        ensures book { self.new.book ≡ self.old.book }
        ensures keeps { Keeps seat.old seat.new }
        ensures idle { HasDoneNothing seat.old seat.new }
        ensures circular { IfOk result (TellsCycle N.opening cell seat.new) }
    {
        self.lend(marks, seat);
        pair_laws();
        let _ = self.book.sheet().sizes();
        let on_cycle = self.book.on_cycle(cell)?;
        self.stock_where_off(marks, cell, store)?;
        Ok(on_cycle)
    }
}

/// The office of a live sheet: it tells what stands in a cell after the log that is behind the lock. It takes the lock
/// only for what its store doesn't tell.
#[derive(Drop)]
pub(crate) struct LiveOffice<'a, 'b, N: Naming> {
    pub(crate) live: &'a Live<N>,
    pub(crate) store: &'b Mutex<Store<N>>,
}

impl<'a, 'b, N: Naming> Office<OverSheet> for LiveOffice<'a, 'b, N> {
    ghost words = { λ office. record { id = N.words; subject = N.opening } };

    ghost opening = { λ office. N.opening };

    fn job<R: Wait>(
        &mut self,
        rt: &R,
        cell: Cell,
        seat: &mut Seat<OverSheet>,
    ) -> Result<Task, Memory> {
        let live = self.live;
        let mut store = self.store.lock(rt);
        if let Some(task) = store.task(&live.marks, cell, seat)? {
            return Ok(task);
        }
        live.locked
            .lock(rt)
            .job(&live.marks, cell, seat, &mut store)
    }

    fn circular<R: Wait>(
        &mut self,
        rt: &R,
        cell: Cell,
        seat: &mut Seat<OverSheet>,
    ) -> Result<bool, Memory> {
        let live = self.live;
        let mut store = self.store.lock(rt);
        if let Some(on_cycle) = store.circular(&live.marks, cell, seat) {
            return Ok(on_cycle);
        }
        live.locked
            .lock(rt)
            .circular(&live.marks, cell, seat, &mut store)
    }
}
