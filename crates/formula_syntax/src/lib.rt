//! Formulas as trees, read from their text.
//!
//! A text is a formula exactly where the grammar spells a tree with it (`specs/Spelling.antt`), and no text
//! spells two (`formula_laws`). The grammar has two halves: which tokens a text has (`specs/Lexing.antt`), and
//! which tokens derive which tree, at which level (`specs/Grammar.antt`). The reader gives the tree, or a
//! refusal, each exactly where its cause holds. `print` gives a tree's plain text, which spells the same tree
//! (`specs/Printing.antt`) and is read again wherever a text of the tree is, and `refs` its ranges, each once
//! (`specs/Listing.antt`). `shift` gives it as it reads where it is copied, its references moved
//! (`specs/Shifting.antt`). An edition is a set of functions (`specs/Editions.antt`); what it lacks isn't read.
//!
//! A formula is a tree of at most 8,192 nodes with at most 255 references (`specs/Formula.antt`). Contracts
//! see it as a tree of the specs (`specs/Tree.antt`), without where its nodes lie in memory. One table says
//! what parameters each function takes, and which of them have to be references (`specs/Functions.antt`).
//!
//! Below stand `sheet_refs`, `value_core` and `text_pieces`, and the kit's `itoa`; evaluation stands above.
#![tactic(auto)]

mod edition;
mod functions;
mod laws;
mod lexeme;
mod lexer;
mod listing;
mod parser;
mod printer;
mod reader;
mod shifting;
mod tokens;
mod tree;

pub use edition::Edition;
pub use functions::{Function, ParameterKind};
pub use laws::{formula_laws, shift_laws};
pub use listing::refs;
pub use printer::{print, send_formula};
pub use reader::{MAX_DEPTH, MAX_FIELD, ReadRefused, read_formula};
pub use shifting::{shift, shift_reference};
pub use tokens::Token;
pub use tree::{Formula, Node, Nodes};
