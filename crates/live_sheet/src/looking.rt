ghost use Rattle.std.specs.Prelude.{◌≡◌, ◌≤◌, ◌<◌, length};
ghost use Rattle.edit_log.specs.Rows.{IsInside};
ghost use Rattle.sheet_refs.specs.Cells.{cells_of};
ghost use Rattle.sheet_refs.specs.Sizes.{cell_count};
ghost use Rattle.sheet_model.specs.Boards.{begun_board};
ghost use Rattle.mark_words.specs.Tokens.{IsSeatOf, places_of};
ghost use Rattle.live_sheet.specs.Looks.{HasLooked, HasReadCells};
ghost use Rattle.live_sheet.specs.Passes.{IsLookOf};

use crate::live::Live;
use crate::naming::Naming;
use crate::pass::Pass;
use crate::reading::{read_place, show};
use edit_log::OverSheet;
use mark_words::{Marks, Seat};
use sheet_model::Board;
use sheet_refs::{Range, Sizes};

/// Reads the cells of the window, row by row, and adds what is shown of each to the board.
fn read_cells(
    marks: &Marks<OverSheet>,
    sizes: Sizes,
    seat: &mut Seat<OverSheet>,
    number: u64,
    window: Range,
    board: &mut Board,
)
    requires table { IsSeatOf marks.now seat.old }
    requires places { places_of marks.now ≡ cell_count sizes }
    requires small { cell_count sizes ≤ 1048576 }
    requires inside { IsInside sizes window }
    requires room { length (cells_of window) ≤ board.old.room }
    requires begun { board.old ≡ begun_board board.old number window }
    ensures same { IsSeatOf marks.now seat.new }
    ensures read { HasReadCells sizes number (cells_of window) seat.old seat.new board.new.cells }
    ensures number { board.new.number ≡ number }
    ensures window { board.new.window ≡ window }
    ensures room { board.new.room ≡ board.old.room }
{
    let cells = window.cells();
    let mut cell = window.cell_at(0);
    let mut place = 0;
    while place < cells {
        let loads = read_place(marks, seat, sizes.place(cell) as u32);
        board.push(show(number, loads));
        cell = window.cell_behind(cell);
        place += 1;
    }
}

/// Sees the count of commits, and then reads the cells of the window.
pub(crate) fn look_at(
    marks: &Marks<OverSheet>,
    sizes: Sizes,
    seat: &mut Seat<OverSheet>,
    window: Range,
    board: &mut Board,
)
    requires table { IsSeatOf marks.now seat.old }
    requires places { places_of marks.now ≡ cell_count sizes }
    requires small { cell_count sizes ≤ 1048576 }
    requires inside { IsInside sizes window }
    requires room { length (cells_of window) ≤ board.old.room }
    ensures same { IsSeatOf marks.now seat.new }
    ensures looked { HasLooked sizes window seat.old seat.new board.new }
    ensures room { board.new.room ≡ board.old.room }
{
    let number = marks.see(seat);
    board.begin(number, window);
    read_cells(marks, sizes, seat, number, window, board);
}

impl<N: Naming> Live<N> {
    /// The sizes of the sheet.
    pub(crate) fn sizes(&self) -> Sizes
        ensures sizes { result ≡ N.opening.sizes }
    {
        Sizes {
            rows: self.jobs.rows(),
            cols: self.jobs.cols(),
        }
    }

    /// Shows the window on the board: how many edits there were as the look began, which isn't below any number that
    /// the pass saw or was told, and of each cell, row by row, what one read of its clean word, its value and its mark,
    /// in this order, shows at that number. It takes no lock and no memory, and waits for nobody: one load, and three
    /// for each cell. The reads join those of the pass; the pass's accepted edits and its offers stay.
    pub fn look(&self, pass: &mut Pass<N>, window: Range, board: &mut Board)
        requires inside { IsInside N.opening.sizes window }
        requires room { length (cells_of window) ≤ board.old.room }
        ensures looked { IsLookOf N.opening.sizes window pass.old pass.new board.new }
        ensures room { board.new.room ≡ board.old.room }
    {
        look_at(&self.marks, self.sizes(), &mut pass.seat, window, board);
    }
}
