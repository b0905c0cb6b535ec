ghost use Rattle.std.specs.Prelude.{◌≡◌, ◌↔◌, ◌<◌, ◌+◌, ℕ, IsTrue, IsSome, IsNone, IfSome};

use crate::cell::Cell;
use crate::range::Range;

/// The most cells of a sheet.
pub const MAX_CELLS: u64 = 1_048_576;

/// A rectangle of cells that begins at A1, by its two sizes.
#[derive(Clone, Copy, Debug, PartialEq, Eq)]
pub struct Sizes {
    /// The number of rows.
    pub rows: u32,
    /// The number of columns.
    pub cols: u32,
}

impl Sizes {
    ghost use Rattle.sheet_refs.specs.Sizes.{is_inside, cell_count, place_of, AreNamed, part_inside};
    ghost use Rattle.sheet_refs.specs.Sizes.{HoldsPart, MissesRange};

    /// Whether the cell lies in the rectangle.
    pub fn holds(self, cell: Cell) -> bool
        ensures { result ≡ is_inside self cell }
    {
        cell.row() <= self.rows && cell.col() <= self.cols
    }

    /// The place of a cell among the cells, row by row, counted from 0.
    pub fn place(self, cell: Cell) -> usize
        requires { IsTrue (is_inside self cell) }
        ensures place { result ≡ place_of self cell }
        ensures within { result < cell_count self }
    {
        (cell.row() - 1) as usize * self.cols as usize + (cell.col() - 1) as usize
    }

    /// The cell at a place.
    pub fn cell_at(self, place: usize) -> Cell
        requires named { AreNamed self }
        requires within { place < cell_count self }
        ensures inside { IsTrue (is_inside self result) }
        ensures place { place_of self result ≡ place }
    {
        let row = place / self.cols as usize;
        let col = place % self.cols as usize;
        match Cell::new(row as u32 + 1, col as u32 + 1) {
            Some(cell) => cell,
            None => unreachable!(),
        }
    }

    /// The part of a range that lies in the rectangle; None exactly where no cell of it does.
    pub fn clip(self, range: Range) -> Option<Range>
        ensures some { IsSome result ↔ IsTrue (is_inside self range.head) }
        ensures corners { IfSome result (λ part. part ≡ part_inside self range) }
        ensures cells { IfSome result (HoldsPart self range) }
        ensures nothing { IsNone result → MissesRange self range }
    {
        let head = range.head();
        if !self.holds(head) {
            return None;
        }
        let row = range.tail().row().min(self.rows);
        let col = range.tail().col().min(self.cols);
        Some(Range::of(head, Cell::new(row, col).unwrap()))
    }
}

impl Range {
    ghost use Rattle.std.specs.Prelude.{length, slice_get, Some};
    ghost use Rattle.sheet_refs.specs.Cells.{IsIn, cells_of};
    ghost use Rattle.sheet_refs.specs.Sizes.{cell_of_place};

    /// The cell at a place among the range's cells, row by row, counted from 0.
    pub fn cell_at(&self, place: u64) -> Cell
        requires { place < length (cells_of self.now) }
        ensures cell { result ≡ cell_of_place self.now place }
        ensures listed { slice_get (cells_of self.now) place ≡ Some result }
        ensures inside { IsIn result self.now }
    {
        let head = self.head();
        let width = u64::from(self.tail().col() - head.col() + 1);
        let row = head.row() + (place / width) as u32;
        let col = head.col() + (place % width) as u32;
        Cell::new(row, col).unwrap()
    }

    /// The cell behind a cell of the range, row by row; the head behind the tail.
    pub fn cell_behind(&self, cell: Cell) -> Cell
        requires { IsIn cell self.now }
        ensures next { (place : ℕ) → slice_get (cells_of self.now) place ≡ Some cell
            → place + 1 < length (cells_of self.now)
            → slice_get (cells_of self.now) (place + 1) ≡ Some result }
        ensures last { cell ≡ self.now.tail → result ≡ self.now.head }
        ensures inside { IsIn result self.now }
    {
        let head = self.head();
        let tail = self.tail();
        if cell.col() < tail.col() {
            Cell::new(cell.row(), cell.col() + 1).unwrap()
        } else if cell.row() < tail.row() {
            Cell::new(cell.row() + 1, head.col()).unwrap()
        } else {
            head
        }
    }
}
