ghost use Rattle.std.specs.Prelude.{◌≡◌, ◌<◌, ◌≤◌, length, IfOk};
ghost use Rattle.sheet_refs.specs.Cells.{cells_of};
ghost use Rattle.sheet_model.specs.Boards.{empty_board, begun_board, with_shown};

use sheet_refs::{Cell, Memory, Range};
use std::alloc::Global;
use std::marker::Model;
use value_core::Value;

/// What is shown of a cell.
#[derive(Clone, Copy, Debug, PartialEq, Eq)]
pub enum Shown {
    /// Its value.
    Value(Value),
    /// The number of the last edit that touched it; its value after that is not known yet.
    Stale(u64),
    /// The number of an edit that touched it, later than those of which the board tells.
    Newer(u64),
}

/// What is shown of the cells of a window after a number of edits. The cells come one after the other, row
/// by row.
#[derive(Drop)]
pub struct Board {
    room: u32,
    number: u64,
    window: Range,
    cells: Vec<Shown>,
}

impl Model for Board {
    ghost use Rattle.std.specs.Prelude.{vec_len, vec_capacity};
    ghost use Rattle.sheet_model.specs.Boards.{BoardValue, IsStoredBoard};

    ghost Value = { BoardValue };

    ghost view = { λ b.
        record { room = b.room; number = b.number; window = b.window; cells = b.cells.items } };

    ghost invariant = { λ b.
        IsStoredBoard b.room b.window (vec_len b.cells) (vec_capacity b.cells) };
}

impl Board {
    /// A board with room for so many cells, with the number 0, the window A1:A1 and no cells yet.
    pub fn new(alloc: Global, cells: u32) -> Result<Board, Memory>
        ensures { IfOk result (λ board. board ≡ empty_board cells) }
    {
        let corner = Cell::new(1, 1).unwrap();
        // The first window has a cell, also where there is to be no room.
        let room = cells.max(1) as usize;
        Ok(Board {
            room: cells,
            number: 0,
            window: Range::of(corner, corner),
            cells: Vec::with_capacity(alloc, room)?,
        })
    }

    /// The number of cells that the board was made for.
    pub fn room(&self) -> u32
        ensures { result ≡ self.now.room }
    {
        self.room
    }

    /// How many edits it tells of.
    pub fn number(&self) -> u64
        ensures { result ≡ self.now.number }
    {
        self.number
    }

    /// The window.
    pub fn window(&self) -> Range
        ensures { result ≡ self.now.window }
    {
        self.window
    }

    /// What is shown of the window's cells, row by row, as far as it was added.
    pub fn cells(&self) -> &[Shown]
        ensures cells { result.now ≡ self.now.cells }
        ensures fit { length self.now.cells ≤ length (cells_of self.now.window) }
    {
        &self.cells
    }

    /// Begins another window, of which no cell is shown yet. It takes no memory.
    pub fn begin(&mut self, number: u64, window: Range)
        requires { length (cells_of window) ≤ self.old.room }
        ensures { self.new ≡ begun_board self.old number window }
    {
        self.number = number;
        self.window = window;
        self.cells.clear();
    }

    /// Adds what is shown of the next cell. It takes no memory.
    pub fn push(&mut self, shown: Shown)
        requires { length self.old.cells < length (cells_of self.old.window) }
        ensures { self.new ≡ with_shown self.old shown }
    {
        // Named since the checker proves no push of an enum that holds a type of another crate without it.
        let _value: Option<Value> = None;
        self.cells.push_reserved(shown);
    }
}
