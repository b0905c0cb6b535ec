ghost use Rattle.std.specs.Prelude.{◌≡◌};

use sheet_refs::{Cell, Memory};
use std::alloc::AllocError;
use std::fmt;

/// Why a text is no sheet. An unknown edition is told before all others, and else the first cause in this order; want
/// of memory may come before any.
#[derive(Clone, Copy, Debug, PartialEq, Eq, Drop)]
pub enum SheetRefused {
    /// The first record, counted from 1, with a field that isn't UTF-8.
    NotUtf8 { number: u32 },
    /// More than 1,048,576 cells or more than 16,384 columns: the numbers of records and of columns.
    TooManyCells { rows: u64, cols: u64 },
    /// The first field, row by row, of more than 8,192 bytes.
    FieldTooLong { cell: Cell },
    /// The first formula, row by row, that is refused: more than 64 parentheses are open in it.
    FormulaTooDeep { cell: Cell },
    /// The first formula, row by row, that is refused: it has more than 255 references.
    TooManyRefs { cell: Cell },
    /// The text begins with `#edition `, and its first line names no edition that there is.
    UnknownEdition,
    /// There was no memory for the sheet.
    Memory,
}

/// Prints the refusal in words, as `sheet: field too long at A1`.
impl fmt::Display for SheetRefused {
    ghost use Rattle.std.specs.Prelude.{Some};
    ghost use Rattle.csv_sheet.specs.Results.{sheet_refusal_text};

    ghost output = { λ refused. Some (sheet_refusal_text refused) };

    fn fmt<W: fmt::Write>(&self, f: &mut fmt::Formatter<W>) -> fmt::Result {
        match self {
            SheetRefused::NotUtf8 { number } => write!(f, "sheet: record {number} is not UTF-8"),
            SheetRefused::TooManyCells { .. } => f.write_str("sheet: too many cells"),
            SheetRefused::FieldTooLong { cell } => write!(f, "sheet: field too long at {cell}"),
            SheetRefused::FormulaTooDeep { cell } => write!(f, "sheet: formula too deep at {cell}"),
            SheetRefused::TooManyRefs { cell } => write!(f, "sheet: too many references at {cell}"),
            SheetRefused::UnknownEdition => f.write_str("sheet: unknown edition"),
            SheetRefused::Memory => f.write_str("out of memory"),
        }
    }
}

impl From<Memory> for SheetRefused {
    ghost use Rattle.csv_sheet.specs.declared.refused.SheetRefused.TheVariants as refused;

    ghost from_gives = { λ _ e. e ≡ refused.Memory };

    fn from(_: Memory) -> Self {
        SheetRefused::Memory
    }
}

impl From<AllocError> for SheetRefused {
    ghost use Rattle.csv_sheet.specs.declared.refused.SheetRefused.TheVariants as refused;

    ghost from_gives = { λ _ e. e ≡ refused.Memory };

    fn from(_: AllocError) -> Self {
        SheetRefused::Memory
    }
}
