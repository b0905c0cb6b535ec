// How far runs go down and to the right, by which it is chosen along which of the two a formula is added. Nothing that
// is promised of a graph depends on it but the number of its edges.
ghost use Rattle.std.specs.Prelude.{◌≤◌, ◌+◌};
ghost use Rattle.edit_log.specs.Listings.{ListsAll};

use crate::listing::Listing;
use crate::runs::run_from;
use sheet_model::Sheet;
use sheet_refs::{Cell, Memory, Range};
use std::alloc::Global;

// Whether an end of a range goes on to the right with those of so many cells, of which these are the first and the
// last.
fn end_follows(count: u32, first: Cell, last: Cell, next: Cell) -> bool {
    if next.row() != first.row() || next.col() < first.col() {
        return false;
    }
    let steps = next.col() - first.col();
    if last.col() == first.col() && count > 1 {
        steps == 0
    } else {
        steps == count || count == 1 && steps == 0
    }
}

// The same of each range of a cell.
fn follow(count: u32, first: &[Range], last: &[Range], next: &[Range]) -> bool {
    if next.len() != first.len() || last.len() != first.len() {
        return false;
    }
    for place in 0..first.len() {
        let (one, other, third) = (first[place], last[place], next[place]);
        if !end_follows(count, one.head(), other.head(), third.head()) {
            return false;
        }
        if !end_follows(count, one.tail(), other.tail(), third.tail()) {
            return false;
        }
    }
    true
}

// How many cells go on to the right from a cell, with that one.
fn count_across(sheet: &Sheet, listing: &Listing, cell: Cell) -> u32
    requires lists { ListsAll sheet.now listing.now }
    requires cols { cell.col ≤ sheet.now.sizes.cols }
    requires rows { cell.row ≤ sheet.now.sizes.rows }
    ensures some { 1 ≤ result }
    ensures inside { cell.col + result ≤ sheet.now.sizes.cols + 1 }
{
    let first = listing.at(sheet, cell);
    let mut last = first;
    for col in cell.col() + 1..sheet.cols() + 1 {
        let count = col - cell.col();
        let Some(beside) = Cell::new(cell.row(), col) else {
            return count;
        };
        let next = listing.at(sheet, beside);
        if !follow(count, first, last, next) {
            return count;
        }
        last = next;
    }
    sheet.cols() + 1 - cell.col()
}

/// The columns of a run to the right, from the first to the last; both are 0 where there is none.
#[derive(Clone, Copy)]
struct Stretch {
    first: u32,
    last: u32,
}

impl Stretch {
    // How many columns these are.
    fn count(self) -> u32 {
        self.last.saturating_sub(self.first).saturating_add(1)
    }
}

/// How far the runs go that were looked at last: to the right in each row, and down in one column. A run is looked at
/// once for all cells of it but the last, from which another one may go.
#[derive(Drop)]
pub(crate) struct Reaches {
    across: Vec<Stretch>,
    // The column of the run down, and its last row.
    col: u32,
    down: u32,
}

impl Reaches {
    /// None was looked at yet.
    pub(crate) fn new(alloc: Global, sheet: &Sheet) -> Result<Reaches, Memory> {
        let rows = sheet.rows() as usize;
        let mut across = Vec::with_capacity(alloc, rows)?;
        across.resize(rows, Stretch { first: 0, last: 0 })?;
        Ok(Reaches {
            across,
            col: 0,
            down: 0,
        })
    }

    // How many cells the run to the right has that a cell is in, as far as is known. Those to its left count too, so
    // that its last cell goes on with them.
    fn count_across(&mut self, sheet: &Sheet, listing: &Listing, cell: Cell) -> u32
        requires lists { ListsAll sheet.now listing.now }
        requires cols { cell.col ≤ sheet.now.sizes.cols }
        requires rows { cell.row ≤ sheet.now.sizes.rows }
    {
        let place = cell.row() as usize - 1;
        if place >= self.across.len() {
            return 1;
        }
        let known = self.across[place];
        if known.last > cell.col() {
            return known.count();
        }
        let count = count_across(sheet, listing, cell);
        if known.last == cell.col() && known.count() > count {
            return known.count();
        }
        self.across[place] = Stretch {
            first: cell.col(),
            last: cell.col().saturating_add(count - 1),
        };
        count
    }

    // How many cells go on down from a cell, with that one, as far as is known.
    fn count_down(&mut self, sheet: &Sheet, listing: &Listing, cell: Cell) -> u32
        requires lists { ListsAll sheet.now listing.now }
        requires cols { cell.col ≤ sheet.now.sizes.cols }
        requires rows { cell.row ≤ sheet.now.sizes.rows }
    {
        if self.col == cell.col() && self.down > cell.row() {
            return (self.down - cell.row()).saturating_add(1);
        }
        let run = run_from(sheet, listing, cell);
        self.col = cell.col();
        self.down = cell.row() + (run.count - 1);
        run.count
    }

    /// Whether more formulas go on from a cell to the right than down.
    pub(crate) fn is_longer_across(&mut self, sheet: &Sheet, listing: &Listing, cell: Cell) -> bool
        requires lists { ListsAll sheet.now listing.now }
        requires cols { cell.col ≤ sheet.now.sizes.cols }
        requires rows { cell.row ≤ sheet.now.sizes.rows }
    {
        if listing.at(sheet, cell).is_empty() {
            return false;
        }
        let across = self.count_across(sheet, listing, cell);
        across > 1 && across > self.count_down(sheet, listing, cell)
    }

    // Whether formulas go on to the right from a cell of a column or to it, if the sheet has the row.
    fn is_in_row(&mut self, sheet: &Sheet, listing: &Listing, row: u32, col: u32) -> bool
        requires lists { ListsAll sheet.now listing.now }
        requires cols { col ≤ sheet.now.sizes.cols }
    {
        if row > sheet.rows() {
            return false;
        }
        let Some(cell) = Cell::new(row, col) else {
            return false;
        };
        !listing.at(sheet, cell).is_empty() && self.count_across(sheet, listing, cell) > 1
    }

    /// Whether the cell above or the one below is in a run to the right.
    pub(crate) fn touches_a_row(&mut self, sheet: &Sheet, listing: &Listing, cell: Cell) -> bool
        requires lists { ListsAll sheet.now listing.now }
        requires cols { cell.col ≤ sheet.now.sizes.cols }
    {
        self.is_in_row(sheet, listing, cell.row() - 1, cell.col())
            || self.is_in_row(sheet, listing, cell.row() + 1, cell.col())
    }
}
