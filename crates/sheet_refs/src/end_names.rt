ghost use Rattle.std.specs.Prelude.{◌≡◌};
ghost use Rattle.sheet_refs.specs.Names.{Finds};
ghost use Rattle.sheet_refs.specs.Ends.{IsAnchorName, IsEndName, IsReferenceName, has_dollar};
ghost use Rattle.sheet_refs.specs.Ends.{past_dollar};

use crate::cell::Cell;
use crate::ends::{End, Ref};
use crate::names::{colon_in, column_of, letters_in_front, row_of};

// Whether a `$` stands in front, and what is behind it.
fn dollar_off(text: &[u8]) -> (bool, &[u8])
    ensures fixed { result.0 ≡ has_dollar text.now }
    ensures rest { result.1.now ≡ past_dollar text.now }
{
    match text.split_first() {
        Some((b'$', rest)) => (true, rest),
        _ => (false, text),
    }
}

// The end that a column and a row name, each behind a `$` where it is fixed.
fn anchor_of(text: &[u8]) -> Option<End>
    ensures { Finds result (IsAnchorName text.now) }
{
    let (col_fixed, text) = dollar_off(text);
    let (column, text) = text.split_at(letters_in_front(text));
    let (row_fixed, row) = dollar_off(text);
    let col = column_of(column)?;
    let row = row_of(row)?;
    let cell = Cell::new(row, col)?;
    Some(End {
        cell,
        col_fixed,
        row_fixed,
    })
}

// The same, behind a dot where the reference stands within brackets.
fn end_of(dotted: bool, text: &[u8]) -> Option<End>
    ensures { Finds result (IsEndName dotted text.now) }
{
    if !dotted {
        return anchor_of(text);
    }
    match text.split_first() {
        Some((b'.', name)) => anchor_of(name),
        _ => None,
    }
}

/// The reference that a text spells: one end, or two joined by a colon, in any order. An end is the name
/// of a cell with a `$` before each part that is fixed; within brackets each end stands behind a dot. The
/// brackets are no part of the text. None exactly where the text spells no reference.
pub fn ref_of(dotted: bool, text: &[u8]) -> Option<Ref>
    ensures { Finds result (IsReferenceName dotted text.now) }
{
    match colon_in(text) {
        None => {
            let end = end_of(dotted, text)?;
            Some(Ref::one(end))
        }
        Some(colon) => {
            let first = end_of(dotted, &text[..colon])?;
            let second = end_of(dotted, &text[colon + 1..])?;
            Some(Ref::two(first, second))
        }
    }
}
