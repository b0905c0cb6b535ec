ghost use Rattle.std.specs.Prelude.{◌≡◌, Some};
ghost use Rattle.value_core.specs.Values.{error_text};

use crate::whole::Whole;
use std::fmt;

/// Why a cell has no ordinary value. The names, but for the last, are those of OpenFormula.
#[derive(Clone, Copy, Debug, PartialEq, Eq)]
pub enum ErrorKind {
    /// `#NULL!`: two ranges that were to share cells share none.
    Null,
    /// `#DIV/0!`: a division by zero.
    Div0,
    /// `#VALUE!`: a value of a kind that can't be used here.
    Value,
    /// `#REF!`: a reference to no cell.
    Ref,
    /// `#NAME?`: a text that isn't understood.
    Name,
    /// `#NUM!`: a number out of range, or that there isn't.
    Num,
    /// `#N/A`: a value that isn't available.
    Na,
    /// `#CIRC!`: references that lead into a cycle. No text writes it.
    Circ,
}

impl ErrorKind {
    /// The error's name, as `#NUM!`.
    pub fn name(self) -> &'static str
        ensures { result.now ≡ error_text self }
    {
        match self {
            ErrorKind::Null => "#NULL!",
            ErrorKind::Div0 => "#DIV/0!",
            ErrorKind::Value => "#VALUE!",
            ErrorKind::Ref => "#REF!",
            ErrorKind::Name => "#NAME?",
            ErrorKind::Num => "#NUM!",
            ErrorKind::Na => "#N/A",
            ErrorKind::Circ => "#CIRC!",
        }
    }
}

/// Prints the error's name.
impl fmt::Display for ErrorKind {
    ghost output = { λ kind. Some (error_text kind) };

    fn fmt<W: fmt::Write>(&self, f: &mut fmt::Formatter<W>) -> fmt::Result {
        f.write_str(self.name())
    }
}

/// The value of a cell, or of a part of a formula.
#[derive(Clone, Copy, Debug, PartialEq, Eq)]
pub enum Value {
    /// That of a cell in which nothing stands.
    Empty,
    /// A whole number in range.
    Number(Whole),
    /// TRUE or FALSE.
    Truth(bool),
    /// What stands in place of a value that there isn't.
    Error(ErrorKind),
    /// A text: its place, from 0, in the sheet's table of labels.
    Label(u32),
}
