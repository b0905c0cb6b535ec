// Lists of cells, as they are printed.
ghost use Rattle.text_pieces.specs.Pieces.{HandsOut};
ghost use Rattle.sheet_cli.specs.Graphs.{cells_text};

use sheet_refs::Cell;
use text_pieces::{send, send_cell};

/// Hands out a list of cells, one a line. It takes time in proportion to the cells.
pub(crate) fn send_cells<F: FnMut(&[u8]) -> bool>(cells: &[Cell], to: &mut F) -> bool
    requires callable { F.IsAlwaysCallable to.old }
    ensures sent { HandsOut F.FnMut to.old (cells_text cells.now) result to.new }
{
    for cell in cells {
        if !send_cell(*cell, to) {
            return false;
        }
        if !send(b"\n", to) {
            return false;
        }
    }
    true
}
