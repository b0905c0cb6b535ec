// Names written into an array, from their last byte to their first, so that each goes out in one piece. Each function
// writes its text in front of what stands from `end` on, and returns where it begins.
ghost use Rattle.std.specs.Prelude.{◌≡◌, ◌≤◌, ◌+◌, ◌++◌, ◌∷◌, [], length};
ghost use Rattle.std.specs.Fmt.{decimal};
ghost use Rattle.sheet_refs.specs.Ends.{anchor_text, dollar};
ghost use Rattle.sheet_refs.specs.Names.{cell_text, last_letters};
ghost use Rattle.text_pieces.specs.Written.{Writes};

use itoa::write_digits;
use sheet_refs::{Cell, End};

// One byte.
fn write_byte(byte: u8, text: &mut [u8], end: usize) -> usize
    requires room { 1 ≤ end }
    requires within { end ≤ length text.old }
    ensures written { Writes text.old text.new (byte ∷ []) end result }
    ensures start { result + 1 ≡ end }
{
    text[end - 1] = byte;
    end - 1
}

// The letters of a column, of which no more than `most` are written; none stand for 0.
fn write_letters(most: u8, column: u32, text: &mut [u8], end: usize) -> usize
    requires room { most ≤ end }
    requires within { end ≤ length text.old }
    ensures written { Writes text.old text.new (last_letters most column) end result }
    ensures near { end ≤ result + most }
    ensures start { result ≤ end }
{
    if most == 0 {
        return end;
    }
    if column == 0 {
        return end;
    }
    let letter = write_byte(b'A' + ((column - 1) % 26) as u8, text, end);
    write_letters(most - 1, (column - 1) / 26, text, letter)
}

// A row, which has at most seven digits.
fn write_row(row: u32, text: &mut [u8], end: usize) -> usize
    requires small { row ≤ 1048576 }
    requires room { 7 ≤ end }
    requires within { end ≤ length text.old }
    ensures written { Writes text.old text.new (decimal row) end result }
    ensures near { end ≤ result + 7 }
    ensures start { result ≤ end }
{
    write_digits(u64::from(row), text, end)
}

/// A cell, which has at most ten bytes.
pub(crate) fn write_cell(cell: Cell, text: &mut [u8], end: usize) -> usize
    requires room { 10 ≤ end }
    requires within { end ≤ length text.old }
    ensures written { Writes text.old text.new (cell_text cell) end result }
    ensures near { end ≤ result + 10 }
    ensures start { result ≤ end }
{
    let digits = write_row(cell.row(), text, end);
    write_letters(3, cell.col(), text, digits)
}

/// Two cells, joined by a colon.
pub(crate) fn write_cells(head: Cell, tail: Cell, text: &mut [u8], end: usize) -> usize
    requires room { 21 ≤ end }
    requires within { end ≤ length text.old }
    ensures written { Writes text.old text.new (cell_text head ++ 58 ∷ cell_text tail) end result }
    ensures start { result ≤ end }
{
    let second = write_cell(tail, text, end);
    let colon = write_byte(b':', text, second);
    write_cell(head, text, colon)
}

// The mark of a part that is fixed.
fn write_mark(fixed: bool, text: &mut [u8], end: usize) -> usize
    requires room { 1 ≤ end }
    requires within { end ≤ length text.old }
    ensures written { Writes text.old text.new (dollar fixed) end result }
    ensures near { end ≤ result + 1 }
    ensures start { result ≤ end }
{
    if fixed {
        write_byte(b'$', text, end)
    } else {
        end
    }
}

/// An end of a reference, which has at most twelve bytes: its column and its row, each behind a `$` where it is fixed.
pub(crate) fn write_end(one: End, text: &mut [u8], end: usize) -> usize
    requires room { 12 ≤ end }
    requires within { end ≤ length text.old }
    ensures written { Writes text.old text.new (anchor_text one) end result }
    ensures near { end ≤ result + 12 }
    ensures start { result ≤ end }
{
    let digits = write_row(one.cell.row(), text, end);
    let row = write_mark(one.row_fixed, text, digits);
    let letters = write_letters(3, one.cell.col(), text, row);
    write_mark(one.col_fixed, text, letters)
}

/// Two ends of a reference, joined by a colon.
pub(crate) fn write_ends(head: End, tail: End, text: &mut [u8], end: usize) -> usize
    requires room { 25 ≤ end }
    requires within { end ≤ length text.old }
    ensures written { Writes text.old text.new (anchor_text head ++ 58 ∷ anchor_text tail) end result }
    ensures start { result ≤ end }
{
    let second = write_end(tail, text, end);
    let colon = write_byte(b':', text, second);
    write_end(head, text, colon)
}
