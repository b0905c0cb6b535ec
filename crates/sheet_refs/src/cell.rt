ghost use Rattle.std.specs.Prelude.{◌≡◌, ◌<◌, ◌↔◌, IsSome, IfSome, Some};

use crate::ends::End;
use std::fmt;
use std::marker::Model;

/// The number of rows that have a name.
pub const MAX_ROWS: u32 = 1_048_576;

/// The number of columns that have a name, A to XFD.
pub const MAX_COLS: u32 = 16_384;

/// A cell of a sheet: a row from 1 to 1,048,576 and a column from 1 to 16,384.
#[derive(Clone, Copy, Debug, PartialEq, Eq)]
pub struct Cell {
    row: u32,
    col: u32,
}

impl Model for Cell {
    ghost use Rattle.sheet_refs.specs.Cells.{Position, IsNamed};

    ghost Value = { Position };

    ghost view = { λ c. record { row = c.row; col = c.col } };

    ghost invariant = { λ c. IsNamed c.row c.col };

    ghost inverse = { λ p. record { row = p.row; col = p.col } };
}

impl Cell {
    ghost use Rattle.sheet_refs.specs.Cells.{IsNamed};

    /// The cell of this row and column, both counted from 1; None exactly where it has no name.
    pub fn new(row: u32, col: u32) -> Option<Cell>
        ensures named { IsSome result ↔ IsNamed row col }
        ensures position { IfSome result (λ cell. (cell.row ≡ row) × (cell.col ≡ col)) }
    {
        if 1 <= row && row <= MAX_ROWS && 1 <= col && col <= MAX_COLS {
            Some(Cell { row, col })
        } else {
            None
        }
    }

    // The cell of this row and column, which are known to have a name.
    pub(crate) fn named(row: u32, col: u32) -> Cell
        requires { IsNamed row col }
        ensures { result ≡ record { row = row; col = col } }
    {
        Cell { row, col }
    }

    /// The row, from 1 to 1,048,576.
    pub fn row(&self) -> u32
        ensures row { result ≡ self.now.row }
        ensures named { IsNamed self.now.row self.now.col }
    {
        self.row
    }

    /// The column, from 1 to 16,384.
    pub fn col(&self) -> u32
        ensures col { result ≡ self.now.col }
        ensures named { IsNamed self.now.row self.now.col }
    {
        self.col
    }
}

/// Prints the column in upper-case letters and the row, as `AA10`.
impl fmt::Display for Cell {
    ghost use Rattle.std.specs.Prelude.{Some};
    ghost use Rattle.sheet_refs.specs.Names.{cell_text};

    ghost output = { λ cell. Some (cell_text cell) };

    fn fmt<W: fmt::Write>(&self, f: &mut fmt::Formatter<W>) -> fmt::Result {
        let end = End {
            cell: *self,
            col_fixed: false,
            row_fixed: false,
        };
        write!(f, "{end}")
    }
}
