ghost use Rattle.std.specs.Prelude.{◌≡◌, ◌+◌, ◌%◌};
ghost use Rattle.sheet_refs.specs.Ends.{lesser, greater, dollar};

use crate::cell::Cell;
use crate::range::Range;
use std::fmt;
use std::marker::Model;

/// An end of a reference: a cell, and which of its parts are fixed, that is written behind a `$`.
#[derive(Clone, Copy, Debug, PartialEq, Eq)]
pub struct End {
    /// The cell.
    pub cell: Cell,
    /// Whether the column is fixed.
    pub col_fixed: bool,
    /// Whether the row is fixed.
    pub row_fixed: bool,
}

impl Model for End {
    ghost use Rattle.sheet_refs.specs.Ends.{Anchor};

    ghost Value = { Anchor };

    ghost view = { λ e.
        record { cell = e.cell; col_fixed = e.col_fixed; row_fixed = e.row_fixed } };

    ghost inverse = { λ a.
        record { cell = a.cell; col_fixed = a.col_fixed; row_fixed = a.row_fixed } };
}

/// An end as a reference keeps it, in 8 bytes: formulas have many references, and no column is past 16,384.
#[derive(Clone, Copy, Debug, PartialEq, Eq)]
struct KeptEnd {
    row: u32,
    col: u16,
    col_fixed: bool,
    row_fixed: bool,
}

impl Model for KeptEnd {
    ghost use Rattle.sheet_refs.specs.Cells.{IsNamed};
    ghost use Rattle.sheet_refs.specs.Ends.{Anchor};

    ghost Value = { Anchor };

    ghost view = { λ k.
        record { cell = record { row = k.row; col = k.col }; col_fixed = k.col_fixed; row_fixed = k.row_fixed } };

    ghost invariant = { λ k. IsNamed k.row k.col };

    ghost inverse = { λ a.
        record { row = a.cell.row; col = a.cell.col; col_fixed = a.col_fixed; row_fixed = a.row_fixed } };
}

impl KeptEnd {
    fn of(end: End) -> KeptEnd
        ensures { result ≡ end }
    {
        KeptEnd {
            row: end.cell.row(),
            col: end.cell.col() as u16,
            col_fixed: end.col_fixed,
            row_fixed: end.row_fixed,
        }
    }

    fn cell(&self) -> Cell
        ensures { result ≡ self.now.cell }
    {
        Cell::named(self.row, u32::from(self.col))
    }

    fn end(&self) -> End
        ensures { result ≡ self.now }
    {
        End {
            cell: self.cell(),
            col_fixed: self.col_fixed,
            row_fixed: self.row_fixed,
        }
    }
}

/// A reference as it is written: one end, or two whose rows and columns are in order.
#[derive(Clone, Copy, Debug, PartialEq, Eq)]
pub struct Ref {
    head: KeptEnd,
    tail: KeptEnd,
    single: bool,
}

impl Model for Ref {
    ghost use Rattle.sheet_refs.specs.Ends.{Reference, IsReference};

    ghost Value = { Reference };

    ghost view = { λ r. record { head = r.head; tail = r.tail; single = r.single } };

    ghost invariant = { λ r. IsReference r.head r.tail r.single };

    ghost inverse = { λ v. record { head = v.head; tail = v.tail; single = v.single } };
}

impl Ref {
    ghost use Rattle.sheet_refs.specs.Ends.{IsReference, one_end, two_ends, corners_of};

    /// The reference that is written as one end.
    pub fn one(a: End) -> Ref
        ensures { result ≡ one_end a }
    {
        let end = KeptEnd::of(a);
        Ref {
            head: end,
            tail: end,
            single: true,
        }
    }

    /// The reference that is written as two ends. The rows and the columns are put in order, each with
    /// its `$`; equal ones stay as they are written.
    pub fn two(a: End, b: End) -> Ref
        ensures { result ≡ two_ends a b }
    {
        Ref {
            head: KeptEnd::of(lesser_end(a, b)),
            tail: KeptEnd::of(greater_end(a, b)),
            single: false,
        }
    }

    /// The end at the top left.
    pub fn head(&self) -> End
        ensures head { result ≡ self.now.head }
        ensures kept { IsReference self.now.head self.now.tail self.now.single }
    {
        self.head.end()
    }

    /// The end at the bottom right.
    pub fn tail(&self) -> End
        ensures tail { result ≡ self.now.tail }
        ensures kept { IsReference self.now.head self.now.tail self.now.single }
    {
        self.tail.end()
    }

    /// Whether it is written as one end.
    pub fn single(&self) -> bool
        ensures { result ≡ self.now.single }
    {
        self.single
    }

    /// The range between the two ends.
    pub fn range(&self) -> Range
        ensures { result ≡ corners_of self.now }
    {
        Range::of(self.head.cell(), self.tail.cell())
    }
}

fn lesser_end(a: End, b: End) -> End
    ensures { result ≡ lesser a b }
{
    let row = a.cell.row().min(b.cell.row());
    let col = a.cell.col().min(b.cell.col());
    End {
        cell: Cell::new(row, col).unwrap(),
        col_fixed: if a.cell.col() <= b.cell.col() {
            a.col_fixed
        } else {
            b.col_fixed
        },
        row_fixed: if a.cell.row() <= b.cell.row() {
            a.row_fixed
        } else {
            b.row_fixed
        },
    }
}

fn greater_end(a: End, b: End) -> End
    ensures { result ≡ greater a b }
{
    let row = a.cell.row().max(b.cell.row());
    let col = a.cell.col().max(b.cell.col());
    End {
        cell: Cell::new(row, col).unwrap(),
        col_fixed: if a.cell.col() <= b.cell.col() {
            b.col_fixed
        } else {
            a.col_fixed
        },
        row_fixed: if a.cell.row() <= b.cell.row() {
            b.row_fixed
        } else {
            a.row_fixed
        },
    }
}

/// Prints the column in upper-case letters and the row, each behind a `$` where it is fixed, as `$AA10`.
impl fmt::Display for End {
    ghost use Rattle.std.specs.Prelude.{Some};
    ghost use Rattle.sheet_refs.specs.Ends.{anchor_text};

    ghost output = { λ end. Some (anchor_text end) };

    fn fmt<W: fmt::Write>(&self, f: &mut fmt::Formatter<W>) -> fmt::Result {
        let (col_mark, row_mark) = (mark(self.col_fixed), mark(self.row_fixed));
        let (row, col) = (self.cell.row(), self.cell.col());
        let last = letter(col - 1);
        let before_last = (col - 1) / 26;
        if before_last == 0 {
            return write!(f, "{col_mark}{last}{row_mark}{row}");
        }
        let middle = letter(before_last - 1);
        let first = (before_last - 1) / 26;
        if first == 0 {
            return write!(f, "{col_mark}{middle}{last}{row_mark}{row}");
        }
        let first = letter(first - 1);
        write!(f, "{col_mark}{first}{middle}{last}{row_mark}{row}")
    }
}

/// Prints one end where it is written as one, and else both, joined by a colon, as `A$1:B2`.
impl fmt::Display for Ref {
    ghost use Rattle.std.specs.Prelude.{Some};
    ghost use Rattle.sheet_refs.specs.Ends.{reference_text};

    ghost output = { λ reference. Some (reference_text reference) };

    fn fmt<W: fmt::Write>(&self, f: &mut fmt::Formatter<W>) -> fmt::Result {
        let head = self.head.end();
        if self.single {
            return write!(f, "{head}");
        }
        let tail = self.tail.end();
        write!(f, "{head}:{tail}")
    }
}

// What stands before a part of an end.
fn mark(fixed: bool) -> &'static str
    ensures { result.now ≡ dollar fixed }
{
    if fixed { "$" } else { "" }
}

// The upper-case letter at a place of the alphabet, from 0; past Z it begins again.
fn letter(place: u32) -> char
    ensures { result ≡ 65 + place % 26 }
{
    char::from(b'A' + (place % 26) as u8)
}
