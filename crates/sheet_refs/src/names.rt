ghost use Rattle.std.specs.Prelude.{◌≡◌, ◌≤◌, ◌<◌, ◌^◌, ◌-◌, length, ◌==◌};
ghost use Rattle.std.specs.Char.{is_ascii_alphabetic};
ghost use Rattle.std.specs.List.{prefix_len, position};
ghost use Rattle.sheet_refs.specs.Names.{Finds, IsDecimal, IsColumnName, IsRowName, IsCellName};
ghost use Rattle.sheet_refs.specs.Names.{IsRangeName, letter_number, IsLetter};

use crate::Range;
use crate::cell::{Cell, MAX_COLS, MAX_ROWS};

/// The number that the digits write in base ten; None exactly where the text isn't one or more digits
/// or the number exceeds `most`, which is less than the greatest number of 64 bits. Leading zeros are
/// digits like others. The time is in proportion to the length of the text.
pub fn decimal_of(text: &[u8], most: u64) -> Option<u64>
    requires { most < 2 ^ 64 - 1 }
    ensures { Finds result (IsDecimal text.now most) }
{
    if text.is_empty() {
        return None;
    }
    // A number past the type's end stays at that end, which `most` is below.
    let mut number: u64 = 0;
    for digit in text {
        if !digit.is_ascii_digit() {
            return None;
        }
        number = number
            .saturating_mul(10)
            .saturating_add(u64::from(*digit - b'0'));
    }
    (number <= most).then_some(number)
}

// A letter's number in the alphabet, from 1, in either case.
fn number_of_letter(letter: u8) -> u32
    requires { IsLetter letter }
    ensures place { result ≡ letter_number letter }
    ensures small { result < 27 }
{
    let first = if letter <= b'Z' { b'A' } else { b'a' };
    u32::from(letter - first) + 1
}

// The column that a text names, A to XFD.
pub(crate) fn column_of(text: &[u8]) -> Option<u32>
    ensures { Finds result (IsColumnName text.now) }
{
    if text.is_empty() || text.len() > 3 || !text.iter().all(|byte| byte.is_ascii_alphabetic()) {
        return None;
    }
    let mut column = 0;
    for letter in text {
        column = column * 26 + number_of_letter(*letter);
    }
    (column <= MAX_COLS).then_some(column)
}

// The row that a text names, without a leading zero.
pub(crate) fn row_of(text: &[u8]) -> Option<u32>
    ensures { Finds result (IsRowName text.now) }
{
    if text.len() > 7 || text.first() == Some(&b'0') {
        return None;
    }
    let row = decimal_of(text, u64::from(MAX_ROWS))?;
    Some(row as u32)
}

// How many letters stand before the first other byte.
pub(crate) fn letters_in_front(text: &[u8]) -> usize
    ensures count { result ≡ prefix_len is_ascii_alphabetic text.now }
    ensures within { result ≤ length text.now }
{
    text.iter()
        .take_while(|byte| byte.is_ascii_alphabetic())
        .count()
}

/// The cell that a text names: one to three letters of either case, A to XFD, and a row number from 1
/// to 1,048,576 without a leading zero. None exactly where the text is no such name.
pub fn cell_of(text: &[u8]) -> Option<Cell>
    ensures { Finds result (IsCellName text.now) }
{
    let (column, row) = text.split_at(letters_in_front(text));
    let col = column_of(column)?;
    let row = row_of(row)?;
    Cell::new(row, col)
}

// The place of the first colon.
pub(crate) fn colon_in(text: &[u8]) -> Option<usize>
    ensures { result ≡ position (λ byte. byte == 58) text.now }
{
    text.iter().position(|byte| *byte == b':')
}

/// The range that a text names: one cell, or two opposite corners joined by a colon, in any order.
/// None exactly where the text is neither.
pub fn range_of(text: &[u8]) -> Option<Range>
    ensures { Finds result (IsRangeName text.now) }
{
    match colon_in(text) {
        None => {
            let cell = cell_of(text)?;
            Some(Range::of(cell, cell))
        }
        Some(colon) => {
            let head = cell_of(&text[..colon])?;
            let tail = cell_of(&text[colon + 1..])?;
            Some(Range::of(head, tail))
        }
    }
}
