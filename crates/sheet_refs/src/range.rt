ghost use Rattle.std.specs.Prelude.{◌≡◌, ◌*◌, ◌≤◌, ◌↔◌, length, IsTrue, IsSome, IfSome};

use crate::Cell;
use std::fmt;
use std::marker::Model;

/// The cells between two corners: a rectangle with a head at its top left and a tail at its bottom right.
#[derive(Clone, Copy, Debug, PartialEq, Eq)]
pub struct Range {
    head: Cell,
    tail: Cell,
}

impl Model for Range {
    ghost use Rattle.sheet_refs.specs.Cells.{Corners, IsOrdered};

    ghost Value = { Corners };

    ghost view = { λ r. record { head = r.head; tail = r.tail } };

    ghost invariant = { λ r. IsOrdered r.head r.tail };

    ghost inverse = { λ c. record { head = c.head; tail = c.tail } };
}

impl Range {
    ghost use Rattle.sheet_refs.specs.Cells.{IsIn, IsOrdered, IsSmallestWith, span_of, height};
    ghost use Rattle.sheet_refs.specs.Cells.{width};
    ghost use Rattle.sheet_refs.specs.Cells.{cells_of, ListsCells};
    ghost use Rattle.sheet_refs.specs.Rectangles.{HoldsShared, Overlap};

    /// The smallest rectangle with both cells.
    pub fn of(a: Cell, b: Cell) -> Range
        ensures corners { result ≡ span_of a b }
        ensures both { IsIn a result × IsIn b result }
        ensures smallest { IsSmallestWith a b result }
    {
        let head = Cell::new(a.row().min(b.row()), a.col().min(b.col())).unwrap();
        let tail = Cell::new(a.row().max(b.row()), a.col().max(b.col())).unwrap();
        Range { head, tail }
    }

    /// The cell at the top left.
    pub fn head(&self) -> Cell
        ensures head { result ≡ self.now.head }
        ensures ordered { IsOrdered self.now.head self.now.tail }
    {
        self.head
    }

    /// The cell at the bottom right.
    pub fn tail(&self) -> Cell
        ensures tail { result ≡ self.now.tail }
        ensures ordered { IsOrdered self.now.head self.now.tail }
    {
        self.tail
    }

    /// How many cells the range has: at most 17,179,869,184.
    pub fn cells(&self) -> u64
        ensures product { result ≡ height self.now * width self.now }
        ensures small { result ≤ 17179869184 }
        ensures count { result ≡ length (cells_of self.now) }
        ensures listed { ListsCells (cells_of self.now) self.now }
    {
        let rows = self.tail.row() - self.head.row() + 1;
        let cols = self.tail.col() - self.head.col() + 1;
        u64::from(rows) * u64::from(cols)
    }

    /// Whether the cell is one of the range's.
    pub fn contains(&self, cell: Cell) -> bool
        ensures { IsTrue result ↔ IsIn cell self.now }
    {
        let rows = self.head.row() <= cell.row() && cell.row() <= self.tail.row();
        rows && self.head.col() <= cell.col() && cell.col() <= self.tail.col()
    }

    /// Whether the two ranges share a cell.
    pub fn overlaps(&self, other: &Range) -> bool
        ensures { IsTrue result ↔ Overlap self.now other.now }
    {
        let rows = self.head.row().max(other.head.row()) <= self.tail.row().min(other.tail.row());
        let cols = self.head.col().max(other.head.col()) <= self.tail.col().min(other.tail.col());
        rows && cols
    }

    /// The range of the cells that the two ranges share; None exactly where they share none.
    pub fn meet(&self, other: &Range) -> Option<Range>
        ensures some { IsSome result ↔ Overlap self.now other.now }
        ensures shared { IfSome result (HoldsShared self.now other.now) }
    {
        if !self.overlaps(other) {
            return None;
        }
        let top = self.head.row().max(other.head.row());
        let left = self.head.col().max(other.head.col());
        let bottom = self.tail.row().min(other.tail.row());
        let right = self.tail.col().min(other.tail.col());
        let head = Cell::new(top, left).unwrap();
        let tail = Cell::new(bottom, right).unwrap();
        Some(Range { head, tail })
    }
}

/// Prints both corners, joined by a colon, as `A1:B2`.
impl fmt::Display for Range {
    ghost use Rattle.std.specs.Prelude.{Some};
    ghost use Rattle.sheet_refs.specs.Names.{range_text};

    ghost output = { λ range. Some (range_text range) };

    fn fmt<W: fmt::Write>(&self, f: &mut fmt::Formatter<W>) -> fmt::Result {
        let head = self.head;
        let tail = self.tail;
        write!(f, "{head}:{tail}")
    }
}
