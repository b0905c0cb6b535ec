// The two directions of a run, so that a row is treated as a column is.
ghost use Rattle.std.specs.Prelude.{◌≡◌, ◌+◌, ◌-◌, ◌<◌, ◌≤◌, ◌↔◌, IsTrue};
ghost use Rattle.edge_patterns.specs.Axes.{along, across, position_at, slice_of, IsLine, axis_of};
ghost use Rattle.edge_patterns.specs.Axes.{count_along};
ghost use Rattle.edge_patterns.specs.Edges.{HasName, IsRange};

use sheet_refs::{Cell, Range};

/// The direction in which a run goes.
#[derive(Clone, Copy, Debug, PartialEq, Eq)]
pub enum Axis {
    /// From row to row in one column.
    Down,
    /// From column to column in one row.
    Right,
}

impl Axis {
    /// The direction of a run: down where it stands in one column.
    pub(crate) fn of(run: &Range) -> Axis
        ensures { result ≡ axis_of run.now }
    {
        if run.head().col() == run.tail().col() {
            Axis::Down
        } else {
            Axis::Right
        }
    }

    /// The coordinate of a cell in this direction.
    pub(crate) fn along(self, cell: Cell) -> u32
        ensures along { result ≡ along self cell }
        ensures small { result ≤ 1048576 }
    {
        match self {
            Axis::Down => cell.row(),
            Axis::Right => cell.col(),
        }
    }

    /// The coordinate of a cell across this direction.
    pub(crate) fn across(self, cell: Cell) -> u32
        ensures { result ≡ across self cell }
    {
        match self {
            Axis::Down => cell.col(),
            Axis::Right => cell.row(),
        }
    }

    /// How many cells a range has in this direction.
    pub(crate) fn count(self, range: &Range) -> u32
        ensures count { result ≡ count_along self range.now }
        ensures some { 0 < result }
        ensures small { result ≤ 1048576 }
    {
        self.along(range.tail()) + 1 - self.along(range.head())
    }

    /// Whether a range is one cell wide in this direction.
    pub(crate) fn is_line(self, range: &Range) -> bool
        ensures { IsTrue result ↔ IsLine self range.now }
    {
        self.across(range.head()) == self.across(range.tail())
    }

    /// The part of a range between two coordinates in this direction.
    pub(crate) fn slice(self, range: &Range, first: u32, last: u32) -> Range
        requires from { along self range.now.head ≤ first }
        requires ordered { first ≤ last }
        requires to { last ≤ along self range.now.tail }
        ensures slice { result ≡ slice_of self range.now first last }
        ensures range { IsRange result }
    {
        check_names(range);
        let head = self.with_coordinate(range.head(), first);
        let tail = self.with_coordinate(range.tail(), last);
        Range::of(head, tail)
    }

    // The cell with another coordinate in this direction.
    fn with_coordinate(self, cell: Cell, coordinate: u32) -> Cell
        requires { HasName (position_at self coordinate (across self cell)) }
        ensures { result ≡ position_at self coordinate (across self cell) }
    {
        match self {
            Axis::Down => Cell::new(coordinate, cell.col()).unwrap(),
            Axis::Right => Cell::new(cell.row(), coordinate).unwrap(),
        }
    }
}

/// Tells the proofs around it that the cells of a range have names; it does nothing.
pub(crate) fn check_names(range: &Range)
    ensures { IsRange range.now }
{
    let _ = range.head().row();
    let _ = range.tail().row();
}
