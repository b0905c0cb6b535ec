#![tactic(auto)]

ghost use Rattle.std.specs.Prelude.{◌≡◌, ◌+◌, ◌*◌};
ghost use Rattle.std.specs.Mem.Slots.{slots_len, IsFull};

use crate::marks::Marks;
use crate::seats::Seat;
use crate::tables::History;
use atomic_table::{Closed, Seat as TableSeat};
use mark_core::Subject;
use std::alloc::Global;

/// The words of a table that no thread shares any more. Contracts see its places and the editor's log.
pub struct Words<S: Subject> {
    pub(crate) closed: Closed<S::Entry, Global>,
    pub(crate) places: usize,
    // a seat of no bytes that knows what the editor's did
    pub(crate) witness: TableSeat<S::Entry, History<S, S::Entry>>,
    ghost full: { IsFull closed.words },
    ghost no_slots: { slots_len closed.slots ≡ 0 },
    ghost sized: { slots_len closed.words ≡ 3 * places + 1 },
}

impl<S: Subject> Drop for Words<S> {
    fn drop(self) {
        let Words {
            closed,
            places: _,
            witness: _,
        } = self;
        closed.free();
    }
}

/// What comes back where there was no memory to close with: all that was handed in.
#[derive(Drop)]
pub struct Kept<S: Subject> {
    pub marks: Marks<S>,
    pub editor: Seat<S>,
    pub others: Vec<Seat<S>>,
}
