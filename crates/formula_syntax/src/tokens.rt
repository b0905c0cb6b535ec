use crate::functions::Function;
use sheet_refs::Ref;
use value_core::{BinaryOp, ErrorKind, Whole};

/// A token: the least part of a formula that white space doesn't split.
#[derive(Clone, Copy, Debug, PartialEq, Eq)]
pub enum Token {
    /// A number.
    Number(Whole),
    /// `TRUE` or `FALSE`.
    Truth(bool),
    /// An error's name.
    Error(ErrorKind),
    /// A reference, in either spelling.
    Reference(Ref),
    /// A function's name.
    Function(Function),
    /// An operator between two operands; `+` and `-` also stand before one.
    Operator(BinaryOp),
    /// `(`
    Open,
    /// `)`
    Close,
    /// `;` or `,`
    Separator,
}
