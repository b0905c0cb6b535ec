ghost use Rattle.std.specs.Prelude.{◌≡◌, ◌≤◌, ◌<◌, length, IfOk, IsTrue, OnOk};
ghost use Rattle.sheet_refs.specs.Sizes.{cell_count};
ghost use Rattle.mark_words.specs.Tokens.{IsSeatOf, subject_of, places_of, view_of, log_of};
ghost use Rattle.sheet_model.specs.Sheets.{IsSheetSize};
ghost use Rattle.recalc_workers.specs.Desks.{seat_of};
ghost use Rattle.recalc_workers.specs.Settling.{AreInside, KnowsPlace};
ghost use Rattle.recalc_workers.specs.Visits.{HasVisited};
ghost use Rattle.live_sheet.specs.Slices.{IsClear, KnowsFrom};

use mark_core::Subject;
use mark_words::Marks;
use recalc_workers::{Desk, Found, find};
use sheet_refs::{Cell, Memory, Sizes};
use std::alloc::Global;

/// The most stale cells that one look lists.
const MOST_CELLS: usize = 256;

/// How many cells are looked at before a look ends with the stale cells that it has.
const ENOUGH_LOOKED: usize = 65_536;

/// What a look over cells has found.
#[derive(Drop)]
pub(crate) struct Seen {
    /// The stale cells.
    pub(crate) stale: Vec<Cell>,
    /// Whether others hold cells.
    pub(crate) held: bool,
}

/// Looks at the cell at a place.
fn look_at<S: Subject>(
    marks: &Marks<S>,
    desk: &mut Desk<S>,
    sizes: Sizes,
    count: u64,
    place: usize,
    seen: &mut Seen,
) -> Result<(), Memory>
    requires table { IsSeatOf marks.now (seat_of desk.old) }
    requires places { places_of marks.now ≡ cell_count sizes }
    requires sizes { IsSheetSize sizes }
    requires there { place < cell_count sizes }
    requires count { count ≡ length (log_of (seat_of desk.old)) }
    requires inside { AreInside sizes seen.old.stale.items }
    ensures table { IsSeatOf marks.now (seat_of desk.new) }
    ensures visited { HasVisited desk.old desk.new }
    ensures inside { OnOk result (AreInside sizes seen.new.stale.items) }
    ensures clear { OnOk result (IsClear seen.new → IsClear seen.old
        × KnowsPlace (S.touches (subject_of marks.now)) (view_of (seat_of desk.new)) place) }
{
    match find(marks, desk, place as u32, count) {
        Found::Clean => Ok(()),
        Found::Held => {
            seen.held = true;
            Ok(())
        }
        Found::Stale => {
            seen.stale.push(sizes.cell_at(place))?;
            Ok(())
        }
    }
}

/// Whether the stale cells that were found are enough for a look, after so many cells.
fn is_enough(seen: &Seen, looked: usize) -> bool
    ensures { IsTrue result → ¬ IsClear seen.now }
{
    let found = seen.stale.len();
    if found == 0 {
        return false;
    }
    found >= MOST_CELLS || looked >= ENOUGH_LOOKED
}

/// Looks at the cells from one place up to another, until the stale ones are enough. Answers the place at which it
/// ended.
fn look_from<S: Subject>(
    marks: &Marks<S>,
    desk: &mut Desk<S>,
    sizes: Sizes,
    count: u64,
    start: usize,
    end: usize,
    seen: &mut Seen,
) -> Result<usize, Memory>
    requires table { IsSeatOf marks.now (seat_of desk.old) }
    requires places { places_of marks.now ≡ cell_count sizes }
    requires sizes { IsSheetSize sizes }
    requires there { end ≤ cell_count sizes }
    requires count { count ≡ length (log_of (seat_of desk.old)) }
    requires inside { AreInside sizes seen.old.stale.items }
    ensures table { IsSeatOf marks.now (seat_of desk.new) }
    ensures visited { HasVisited desk.old desk.new }
    ensures inside { OnOk result (AreInside sizes seen.new.stale.items) }
    ensures clear { OnOk result (IsClear seen.new → IsClear seen.old
        × KnowsFrom (S.touches (subject_of marks.now)) (view_of (seat_of desk.new)) start end) }
{
    for place in start..end {
        look_at(marks, desk, sizes, count, place, seen)?;
        if is_enough(seen, place - start) {
            return Ok(place);
        }
    }
    Ok(end)
}

/// Where a look begins: at this place of so many cells, counted round.
fn begin(from: usize, cells: usize) -> usize
    ensures { result ≤ cells }
{
    (from % cells.max(1)).min(cells)
}

/// Looks at the cells from a place on, and then, where none of them is stale, at those before it. It ends once 256
/// stale cells are found, or one and 65,536 cells were looked at. The place is then the one at which it ended. It
/// takes three loads a cell, and no lock.
pub(crate) fn look_round<S: Subject>(
    alloc: Global,
    marks: &Marks<S>,
    desk: &mut Desk<S>,
    sizes: Sizes,
    count: u64,
    from: &mut usize,
) -> Result<Seen, Memory>
    requires table { IsSeatOf marks.now (seat_of desk.old) }
    requires places { places_of marks.now ≡ cell_count sizes }
    requires sizes { IsSheetSize sizes }
    requires count { count ≡ length (log_of (seat_of desk.old)) }
    ensures table { IsSeatOf marks.now (seat_of desk.new) }
    ensures visited { HasVisited desk.old desk.new }
    ensures inside { IfOk result (λ seen. AreInside sizes seen.stale.items) }
    ensures clear { IfOk result (λ seen. IsClear seen
        → KnowsFrom (S.touches (subject_of marks.now)) (view_of (seat_of desk.new)) 0 (cell_count sizes)) }
{
    let cells = sizes.rows as usize * sizes.cols as usize;
    let start = begin(*from, cells);
    let mut seen = Seen {
        stale: Vec::new(alloc),
        held: false,
    };
    *from = look_from(marks, desk, sizes, count, start, cells, &mut seen)?;
    if !seen.stale.is_empty() {
        return Ok(seen);
    }
    *from = look_from(marks, desk, sizes, count, 0, start, &mut seen)?;
    Ok(seen)
}
