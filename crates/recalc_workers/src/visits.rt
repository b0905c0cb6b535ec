ghost use Rattle.std.specs.Prelude.{◌≡◌, ◌≤◌, ◌<◌, ◌+◌, length, IsTrue};
ghost use Rattle.sheet_refs.specs.Sizes.{is_inside, cell_count, place_of};
ghost use Rattle.value_core.specs.Values.{code_of};
ghost use Rattle.mark_words.specs.Tokens.{IsSeatOf, subject_of, places_of, view_of, log_of};
ghost use Rattle.sheet_model.specs.Logs.{after};
ghost use Rattle.sheet_model.specs.Values.{value_of};
ghost use Rattle.recalc_workers.specs.Desks.{seat_of};
ghost use Rattle.recalc_workers.specs.Settling.{KnowsPlace, WorksAt};
ghost use Rattle.recalc_workers.specs.Visits.{HasVisited, KnowsFinished};

use crate::clearing::try_to_clear;
use crate::crossing::entries_cross;
use crate::desk::Desk;
use crate::gates::Gate;
use crate::gathering::place_of_cell;
use crate::reading::{Reading, read_place};
use crate::working::is_of_sheet;
use mark_core::Subject;
use mark_words::Marks;
use sheet_model::SheetSubject;
use sheet_refs::{Cell, Sizes};

/// How a read finds a cell.
#[derive(Clone, Copy, Debug, PartialEq, Eq)]
pub enum Found {
    /// It is clean, with its last mark in the log that the seat knows.
    Clean,
    /// Another seat holds it.
    Held,
    /// It is stale, or was marked by an entry that the seat doesn't know.
    Stale,
}

/// How a read finds its cell, for a seat that knows so many entries.
fn found_by(read: Reading, count: u64) -> Found
    ensures clean { result ≡ Found.Clean → (read.clean.upto ≡ read.mark + 1) × (read.mark ≤ count) }
{
    if read.clean.is_for(read.mark) {
        if read.mark <= count {
            return Found::Clean;
        }
        return Found::Stale;
    }
    if read.clean.held {
        return Found::Held;
    }
    Found::Stale
}

/// Reads the cell at a place with the desk's seat, which knows a log of so many entries. It takes three loads.
pub fn find<S: Subject>(marks: &Marks<S>, desk: &mut Desk<S>, place: u32, count: u64) -> Found
    requires table { IsSeatOf marks.now (seat_of desk.old) }
    requires there { place < places_of marks.now }
    requires count { count ≡ length (log_of (seat_of desk.old)) }
    ensures table { IsSeatOf marks.now (seat_of desk.new) }
    ensures visited { HasVisited desk.old desk.new }
    ensures known { result ≡ Found.Clean
        → KnowsPlace (S.touches (subject_of marks.now)) (view_of (seat_of desk.new)) place }
{
    let read = read_place(marks, &mut desk.seat, place);
    found_by(read, count)
}

/// Puts the code of the cell's value, after the log that the desk's seat knows, which has so many entries: a read, and
/// where it finds the cell stale a claim, the gate's call, the put and the finish. It waits for nobody. Answers whether
/// the seat knows the cell as clean now. It doesn't where another seat holds the cell or took it first, nor where an
/// entry behind the log marked it.
pub fn put_once<S: SheetSubject, G: Gate>(
    marks: &Marks<S>,
    desk: &mut Desk<S>,
    sizes: Sizes,
    cell: Cell,
    word: u64,
    count: u64,
    gate: &G,
) -> bool
    requires table { IsSeatOf marks.now (seat_of desk.old) }
    requires sizes { sizes ≡ (S.opening (subject_of marks.now)).sizes }
    requires small { cell_count sizes ≤ 1048576 }
    requires inside { IsTrue (is_inside sizes cell) }
    requires count { count ≡ length (log_of (seat_of desk.old)) }
    requires word { code_of (value_of (after (S.opening (subject_of marks.now)) (log_of (seat_of desk.old))) cell)
        ≡ word }
    ensures table { IsSeatOf marks.now (seat_of desk.new) }
    ensures works { WorksAt desk.old desk.new }
    ensures finished { KnowsFinished (S.touches (subject_of marks.now)) (seat_of desk.old) (seat_of desk.new) }
    ensures known { IsTrue result → KnowsPlace (S.touches (subject_of marks.now))
        (view_of (seat_of desk.new)) (place_of sizes cell) }
{
    entries_cross();
    is_of_sheet(marks);
    let place = place_of_cell(sizes, cell);
    try_to_clear(marks, &mut desk.seat, gate, cell, place, word, count)
}
