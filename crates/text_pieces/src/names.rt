ghost use Rattle.sheet_refs.specs.Ends.{reference_text};
ghost use Rattle.sheet_refs.specs.Names.{cell_text, range_text};
ghost use Rattle.text_pieces.specs.Pieces.{HandsOut};

use crate::pieces::send;
use crate::written::{write_cell, write_cells, write_end, write_ends};
use sheet_refs::{Cell, Range, Ref};

/// Hands out a reference as it is printed: one end where it is written as one, else two joined by a colon.
pub fn send_reference<F: FnMut(&[u8]) -> bool>(reference: &Ref, to: &mut F) -> bool
    requires callable { F.IsAlwaysCallable to.old }
    ensures sent { HandsOut F.FnMut to.old (reference_text reference.now) result to.new }
    ensures callable { F.IsAlwaysCallable to.new }
{
    let mut text = [0u8; 25];
    let start = if reference.single() {
        write_end(reference.head(), &mut text, 25)
    } else {
        write_ends(reference.head(), reference.tail(), &mut text, 25)
    };
    send(&text[start..], to)
}

/// Hands out a range in one piece: its corners, joined by a colon.
pub fn send_range<F: FnMut(&[u8]) -> bool>(range: Range, to: &mut F) -> bool
    requires callable { F.IsAlwaysCallable to.old }
    ensures sent { HandsOut F.FnMut to.old (range_text range) result to.new }
    ensures callable { F.IsAlwaysCallable to.new }
{
    let mut text = [0u8; 21];
    let start = write_cells(range.head(), range.tail(), &mut text, 21);
    send(&text[start..], to)
}

/// Hands out a cell in one piece: its column in upper-case letters and its row.
pub fn send_cell<F: FnMut(&[u8]) -> bool>(cell: Cell, to: &mut F) -> bool
    requires callable { F.IsAlwaysCallable to.old }
    ensures sent { HandsOut F.FnMut to.old (cell_text cell) result to.new }
    ensures callable { F.IsAlwaysCallable to.new }
{
    let mut text = [0u8; 10];
    let start = write_cell(cell, &mut text, 10);
    send(&text[start..], to)
}
