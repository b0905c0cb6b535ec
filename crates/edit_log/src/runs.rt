ghost use Rattle.std.specs.Prelude.{◌≡◌, ◌≤◌, length, IsTrue, IfOk};
ghost use Rattle.edit_log.specs.Listings.{ListsAll};
ghost use Rattle.edit_log.specs.Runs.{EndFollows, Follow, IsRunFrom, RangeFollows, series_of};

use crate::listing::Listing;
use graph_walk::Series;
use sheet_model::Sheet;
use sheet_refs::{Cell, Memory, Range};
use std::alloc::Global;

// Whether an end of a range goes on with those of so many cells, of which these are the first and the last.
fn end_follows(count: u32, first: Cell, last: Cell, next: Cell) -> bool
    requires { count ≤ 1048576 }
    ensures { IsTrue result → EndFollows count first last next }
{
    let stays = last.row() == first.row() && next.row() == first.row();
    let moves = (count == 1 || last.row() != first.row()) && next.row() == first.row() + count;
    next.col() == first.col() && (stays || moves)
}

// The same of both ends of a range.
fn range_follows(count: u32, first: &Range, last: &Range, next: &Range) -> bool
    requires { count ≤ 1048576 }
    ensures { IsTrue result → RangeFollows count first.now last.now next.now }
{
    end_follows(count, first.head(), last.head(), next.head())
        && end_follows(count, first.tail(), last.tail(), next.tail())
}

// The same of each range of a cell.
fn follow(count: u32, first: &[Range], last: &[Range], next: &[Range]) -> bool
    requires few { count ≤ 1048576 }
    requires as_many { length last.now ≡ length first.now }
    ensures { IsTrue result → Follow count first.now last.now next.now }
{
    if next.len() != first.len() {
        return false;
    }
    for place in 0..first.len() {
        if !range_follows(count, &first[place], &last[place], &next[place]) {
            return false;
        }
    }
    true
}

/// The series whose ranges at the first cell and at the last are these.
pub(crate) fn series_between(
    alloc: Global,
    first: &[Range],
    last: &[Range],
) -> Result<Vec<Series>, Memory>
    requires { length last.now ≡ length first.now }
    ensures { IfOk result (λ series. series.items ≡ series_of first.now last.now) }
{
    let mut series = Vec::with_capacity(alloc, first.len())?;
    for place in 0..first.len() {
        series.push(Series {
            first: first[place],
            last: last[place],
        })?;
    }
    Ok(series)
}

/// Cells down a column, in which the ranges of each follow those of the cell above.
#[derive(Clone, Copy)]
pub(crate) struct Run<'a> {
    /// How many cells it has.
    pub(crate) count: u32,
    /// The ranges of the first cell and of the last.
    pub(crate) first: &'a [Range],
    pub(crate) last: &'a [Range],
}

/// The run that begins with a cell, as far as it goes on. It compares the ranges of each cell with those above it.
pub(crate) fn run_from<'a>(sheet: &Sheet, listing: &'a Listing, cell: Cell) -> Run<'a>
    requires lists { ListsAll sheet.now listing.now }
    requires cols { cell.col ≤ sheet.now.sizes.cols }
    requires rows { cell.row ≤ sheet.now.sizes.rows }
    ensures { IsRunFrom sheet.now cell result }
{
    let (row, col) = (cell.row(), cell.col());
    let first = listing.at(sheet, cell);
    let mut run = Run {
        count: 1,
        first,
        last: first,
    };
    while row + run.count <= sheet.rows() {
        let below = Cell::new(row + run.count, col).unwrap();
        let next = listing.at(sheet, below);
        if !follow(run.count, run.first, run.last, next) {
            return run;
        }
        run.last = next;
        run.count += 1;
    }
    run
}
