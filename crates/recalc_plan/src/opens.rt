ghost use Rattle.std.specs.Prelude.{◌≡◌, ◌≤◌, MatchOption};
ghost use Rattle.sheet_refs.specs.Cells.{IsIn, IsNamed};
ghost use Rattle.recalc_plan.specs.Opens.{AreCells, IsLastIn, IsLastUpTo, IsNowhereIn, IsOpen};
ghost use Rattle.recalc_plan.specs.Opens.{NoneUpTo};
ghost use Rattle.recalc_plan.specs.Opens.{name_place, place_at};

use crate::waiter::Waiter;
use sheet_refs::{Cell, MAX_ROWS, Range};
use std::collections::BTreeMap;

/// A stale cell that stands in no level yet, with those that wait on it.
#[derive(Drop)]
pub(crate) struct Open {
    pub(crate) cell: Cell,
    pub(crate) waiters: Vec<Waiter>,
}

/// The place of a row and a column among all names, column by column.
pub(crate) fn place(col: u32, row: u32) -> u64
    requires col { 1 ≤ col }
    requires row { 1 ≤ row }
    ensures { result ≡ place_at col row }
{
    u64::from(col - 1) * u64::from(MAX_ROWS) + u64::from(row - 1)
}

/// The place of a cell's name.
pub(crate) fn place_of(cell: Cell) -> u64
    ensures place { result ≡ name_place cell }
    ensures named { IsNamed cell.row cell.col }
{
    place(cell.col(), cell.row())
}

// The last open cell up to a place.
fn last_up_to(opens: &BTreeMap<u64, Open>, place: u64) -> Option<Cell>
    requires { AreCells opens.now }
    ensures { MatchOption result (NoneUpTo opens.now place) (IsLastUpTo opens.now place) }
{
    let (_, last) = opens.range(..=place).next_back()?;
    Some(last.cell)
}

// An open cell of a range: in its last column with one, up to the given column, the lowest one. It takes two searches
// in an ordered map for each column of the range.
fn last_in(opens: &BTreeMap<u64, Open>, range: Range, up_to: u32) -> Option<Cell>
    requires { AreCells opens.now }
    ensures { MatchOption result (IsNowhereIn opens.now range up_to) (IsLastIn opens.now range up_to) }
{
    let mut col = up_to.min(range.tail().col());
    while col >= range.head().col() {
        let Some(last) = last_up_to(opens, place(col, range.tail().row())) else {
            return None;
        };
        if last.col() < col {
            col = last.col();
        } else if last.row() >= range.head().row() {
            return Some(last);
        } else {
            col -= 1;
        }
    }
    None
}

// The golden ratio's part of 2^32: multiples of it by numbers that follow on each other lie far apart.
const GOLDEN: u64 = 2_654_435_761;

// A row from the first to the last. Numbers that follow on each other give rows far apart.
fn spread_row(first: u32, last: u32, number: usize) -> u32
    requires named { 1 ≤ first }
    requires order { first ≤ last }
    ensures from { first ≤ result }
    ensures to { result ≤ last }
{
    let spread = number as u64 % 4_294_967_296 * GOLDEN / 65_536 % u64::from(MAX_ROWS);
    first + spread as u32 % (last - first + 1)
}

// An open cell of the same column of a range: the last one up to some row, or else the given one.
fn beside(opens: &BTreeMap<u64, Open>, range: Range, last: Cell) -> Cell
    requires cells { AreCells opens.now }
    requires open { IsOpen opens.now last }
    requires inside { IsIn last range }
    ensures open { IsOpen opens.now result }
    ensures inside { IsIn result range }
    ensures col { result.col ≡ last.col }
{
    let row = spread_row(range.head().row(), last.row(), opens.len());
    let Some(cell) = last_up_to(opens, place(last.col(), row)) else {
        return last;
    };
    if cell.col() == last.col() && cell.row() >= range.head().row() {
        return cell;
    }
    last
}

/// An open cell of a range: in its last column with one, up to the given column, one of any row. Were it always the
/// lowest one, or the highest, a cell would wait on each cell of a column that gets ready from that end.
pub(crate) fn open_in(opens: &BTreeMap<u64, Open>, range: Range, up_to: u32) -> Option<Cell>
    requires { AreCells opens.now }
    ensures { MatchOption result (IsNowhereIn opens.now range up_to) (IsLastIn opens.now range up_to) }
{
    let last = last_in(opens, range, up_to)?;
    Some(beside(opens, range, last))
}
