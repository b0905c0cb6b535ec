// Windows of a sheet's values.
ghost use Rattle.std.specs.Prelude.{◌≡◌, ◌≤◌, IsTrue, is_ok};
ghost use Rattle.sheet_refs.specs.Sizes.{is_inside};
ghost use Rattle.sheet_model.specs.Values.{HasCode, HaveCodes, value_of};
ghost use Rattle.text_pieces.specs.Pieces.{HandsOut};
ghost use Rattle.window_text.specs.Texts.{row_text, sheet_head, sheet_window, show_text, shown_cell};
ghost use Rattle.sheet_model.specs.Sheets.{IsWithinSheet};

use crate::pieces::{Stopped, send_bytes, send_decimal, send_range_name, send_value};
use sheet_model::Sheet;
use sheet_refs::{Cell, Range};
use value_core::{Value, decode};

/// Hands out a range of a sheet after no edit.
pub(crate) fn send_show<F: FnMut(&[u8]) -> bool>(
    sheet: &Sheet,
    range: Range,
    values: &[u64],
    to: &mut F,
) -> Result<(), Stopped>
    requires callable { F.IsAlwaysCallable to.old }
    requires values { HaveCodes sheet.now values.now range }
    requires within { IsWithinSheet range sheet.now }
    ensures sent { HandsOut F.FnMut to.old (show_text sheet.now range) (is_ok result) to.new }
{
    send_sheet_head(0, to)?;
    send_window(sheet, range, values, to)
}

/// Hands out what stands ahead of a window of a sheet after so many edits.
pub(crate) fn send_sheet_head<F: FnMut(&[u8]) -> bool>(
    number: u64,
    to: &mut F,
) -> Result<(), Stopped>
    requires callable { F.IsAlwaysCallable to.old }
    ensures sent { HandsOut F.FnMut to.old (sheet_head number) (is_ok result) to.new }
    ensures callable { F.IsAlwaysCallable to.new }
{
    send_bytes(b"sheet ", to)?;
    send_decimal(number, to)?;
    send_bytes(b" ", to)
}

/// Hands out a range of a sheet and its rows. Each cell of the range has its code among the values, at its place in the
/// sheet, row by row.
pub(crate) fn send_window<F: FnMut(&[u8]) -> bool>(
    sheet: &Sheet,
    range: Range,
    values: &[u64],
    to: &mut F,
) -> Result<(), Stopped>
    requires callable { F.IsAlwaysCallable to.old }
    requires values { HaveCodes sheet.now values.now range }
    requires within { IsWithinSheet range sheet.now }
    ensures sent { HandsOut F.FnMut to.old (sheet_window sheet.now range) (is_ok result) to.new }
    ensures callable { F.IsAlwaysCallable to.new }
{
    send_range_name(range, to)?;
    send_bytes(b"\n", to)?;
    for row in range.head().row()..range.tail().row() + 1 {
        send_row(sheet, range, values, row, to)?;
    }
    Ok(())
}

// Hands out a row of the range, with its line's end.
fn send_row<F: FnMut(&[u8]) -> bool>(
    sheet: &Sheet,
    range: Range,
    values: &[u64],
    row: u32,
    to: &mut F,
) -> Result<(), Stopped>
    requires callable { F.IsAlwaysCallable to.old }
    requires values { HaveCodes sheet.now values.now range }
    requires within { IsWithinSheet range sheet.now }
    requires from { range.head.row ≤ row }
    requires to { row ≤ range.tail.row }
    ensures sent { HandsOut F.FnMut to.old
        (row_text (shown_cell sheet.now) range row) (is_ok result) to.new }
    ensures callable { F.IsAlwaysCallable to.new }
{
    let first = Cell::new(row, range.head().col()).unwrap();
    send_value(value_at(sheet, values, first), sheet.labels(), to)?;
    for col in range.head().col() + 1..range.tail().col() + 1 {
        send_bytes(b",", to)?;
        let cell = Cell::new(row, col).unwrap();
        send_value(value_at(sheet, values, cell), sheet.labels(), to)?;
    }
    send_bytes(b"\n", to)
}

// The value of a cell of the sheet, of which the values have the code.
fn value_at(sheet: &Sheet, values: &[u64], cell: Cell) -> Value
    requires code { HasCode sheet.now values.now cell }
    requires inside { IsTrue (is_inside sheet.now.sizes cell) }
    ensures { result ≡ value_of sheet.now cell }
{
    decode(values[sheet.place(cell)]).unwrap()
}
