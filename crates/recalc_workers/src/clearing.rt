ghost use Rattle.std.specs.Prelude.{◌≡◌, ◌<◌, true, length};
ghost use Rattle.mark_words.specs.Tokens.{IsSeatOf, subject_of, places_of, view_of, log_of};
ghost use Rattle.recalc_workers.specs.Seats.{HoldsNothing};
ghost use Rattle.recalc_workers.specs.Settling.{HasWorked, KnowsPlace};
ghost use Rattle.recalc_workers.specs.Visits.{KnowsFinished};

use crate::finishing::finish_at;
use crate::gates::Gate;
use crate::reading::read_place;
use mark_core::Subject;
use mark_words::{Marks, Seat};
use sheet_refs::Cell;
use std::sync::Wait;
use std::thread::yield_now;

/// Reads the cell's place and, where it is stale and free, puts the word there: its worth after the log that the seat
/// knows, which has `count` entries. Answers whether the seat knows the place as clean now. It doesn't where another
/// seat holds the place or took it first, nor where the place was marked by a later entry.
pub(crate) fn try_to_clear<S: Subject, G: Gate>(
    marks: &Marks<S>,
    seat: &mut Seat<S>,
    gate: &G,
    cell: Cell,
    place: u32,
    word: u64,
    count: u64,
) -> bool
    requires table { IsSeatOf marks.now seat.old }
    requires there { place < places_of marks.now }
    requires free { HoldsNothing seat.old }
    requires worth { S.worth (subject_of marks.now) (log_of seat.old) place ≡ word }
    requires count { count ≡ length (log_of seat.old) }
    ensures same { IsSeatOf marks.now seat.new }
    ensures worked { HasWorked seat.old seat.new }
    ensures finished { KnowsFinished (S.touches (subject_of marks.now)) seat.old seat.new }
    ensures known { result ≡ true
        → KnowsPlace (S.touches (subject_of marks.now)) (view_of seat.new) place }
{
    let read = read_place(marks, seat, place);
    if read.mark > count || read.clean.held {
        return false;
    }
    if read.clean.is_for(read.mark) {
        return true;
    }
    finish_at(marks, seat, gate, cell, place, read, word).is_ok()
}

/// Clears the cell's place. It waits while another seat holds the place, by trying again.
pub(crate) fn clear<R: Wait, S: Subject, G: Gate>(
    rt: &R,
    marks: &Marks<S>,
    seat: &mut Seat<S>,
    gate: &G,
    cell: Cell,
    place: u32,
    word: u64,
    count: u64,
)
    requires table { IsSeatOf marks.now seat.old }
    requires there { place < places_of marks.now }
    requires free { HoldsNothing seat.old }
    requires worth { S.worth (subject_of marks.now) (log_of seat.old) place ≡ word }
    requires count { count ≡ length (log_of seat.old) }
    ensures same { IsSeatOf marks.now seat.new }
    ensures worked { HasWorked seat.old seat.new }
    ensures known { KnowsPlace (S.touches (subject_of marks.now)) (view_of seat.new) place }
{
    for _ in rt.forever() {
        if try_to_clear(marks, seat, gate, cell, place, word, count) {
            return;
        }
        yield_now();
    }
    unreachable!()
}
