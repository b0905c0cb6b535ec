use crate::task::Task;
use mark_words::Seat;
use sheet_model::SheetSubject;
use sheet_refs::{Cell, Memory};
use std::sync::Wait;

/// Where a turn learns what stands in its cell. It lends the seat to whom knows more entries, so that the seat knows
/// them too.
pub trait Office<S: SheetSubject> {
    ghost use Rattle.std.specs.Prelude.{◌≡◌, IfOk, IsTrue};
    ghost use Rattle.sheet_refs.specs.Sizes.{is_inside};
    ghost use Rattle.sheet_model.specs.Sheets.{SheetValue};
    ghost use Rattle.recalc_workers.specs.Seats.{Keeps, HasDoneNothing};
    ghost use Rattle.recalc_workers.specs.Offices.{WordsFor, IsSeatAt, IsTaskFor, TellsCycle};

    /// The table of words of which the seats are.
    ghost words: { Self → WordsFor S };

    /// The sheet before all entries.
    ghost opening: { Self → SheetValue };

    /// What stands in the cell, after as many entries as the seat knows then: no fewer than it had seen. Whatever is
    /// answered, the seat loses nothing that it knew.
    fn job<R: Wait>(&mut self, rt: &R, cell: Cell, seat: &mut Seat<S>) -> Result<Task, Memory>
        requires seat { IsSeatAt (words self.old) seat.old }
        requires cell { IsTrue (is_inside (opening self.old).sizes cell) }
        ensures words { words self.new ≡ words self.old }
        ensures opening { opening self.new ≡ opening self.old }
        ensures keeps { Keeps seat.old seat.new }
        ensures idle { HasDoneNothing seat.old seat.new }
        ensures task { IfOk result (IsTaskFor (opening self.old) seat.old cell seat.new) };

    /// Whether the cell is on a cycle, after the entries that the seat knows then. Whatever is answered, the seat loses
    /// nothing that it knew.
    fn circular<R: Wait>(&mut self, rt: &R, cell: Cell, seat: &mut Seat<S>) -> Result<bool, Memory>
        requires seat { IsSeatAt (words self.old) seat.old }
        requires cell { IsTrue (is_inside (opening self.old).sizes cell) }
        ensures words { words self.new ≡ words self.old }
        ensures opening { opening self.new ≡ opening self.old }
        ensures keeps { Keeps seat.old seat.new }
        ensures idle { HasDoneNothing seat.old seat.new }
        ensures circular { IfOk result (TellsCycle (opening self.old) cell seat.new) };
}
