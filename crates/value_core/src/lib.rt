//! Values of cells, the words that stand for them, and the operators between them.
//!
//! A value is nothing, a whole number, a truth, an error or a label (`specs/Values.antt`). Each has a
//! code, a word of 64 bits that no other value has; `decode` gives the value of a code back, and nothing
//! at any other word. A `CodeWord` is such a word, or one of two that no value has as its code: it tells by
//! its bits what it stands for, without a look at the value (`specs/Codes.antt`).
//!
//! The text of a label stands in a table of the sheet's, so a value doesn't print itself: `value_text` of
//! the specs takes the texts of labels.
//!
//! Below stands only the standard library; formulas, sheets and all that computes stand above.
#![tactic(auto)]

mod codes;
mod convert;
mod laws;
mod operators;
mod value;
mod whole;
mod words;

pub use codes::{code, decode};
pub use convert::{as_number, as_truth, in_range, never_empty, truth_number};
pub use laws::{code_laws, operator_laws};
pub use operators::{BinaryOp, PrefixOp, binary, prefix};
pub use value::{ErrorKind, Value};
pub use whole::{MAX_WHOLE, Whole};
pub use words::CodeWord;
