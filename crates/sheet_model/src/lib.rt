//! Sheets, the values of their cells by one thread, and what logs of edits do to them.
//!
//! A sheet is a rectangle of cells with a content in each, and a table of labels, in which each text
//! stands once. What a field holds, `specs/Fields.antt` says, one line a kind of content; `read_content`
//! reads it. An `Edit` is a list of changes of distinct cells (`specs/Edits.antt`), and `Sheet::apply` makes one;
//! what a log of edits makes of a sheet, and what a subject of marks over it is (`SheetSubject`),
//! `specs/Logs.antt` says. A `Board` shows the cells of a window.
//!
//! What the value of a cell is, `specs/Values.antt` says by a budget of steps of evaluation: with
//! none every cell is circular, and with one more a formula has its value over the values with the
//! rest. `all_values` gives the codes of these values by a walk over the cells that formulas name,
//! with a list of open cells, and `range_values` those of the cells of a range; `KeptValues` gives the value of one
//! cell after the other by the same walk, and keeps through edits what they leave. `value_laws` says what is true of
//! values, however they are computed.
//!
//! Below stand `sheet_refs`, `text_table`, `value_core`, `formula_syntax`, `formula_eval`, `mark_core` and the kit's
//! `arrayvec`, and of its `indexmap` one lemma; above, all that reads, holds, edits, computes or prints a sheet.
#![tactic(auto)]

mod board;
mod cell_laws;
mod change;
mod content;
mod edit;
mod entry;
mod eval;
mod fields;
mod kept_values;
mod known;
mod labels;
mod laws;
mod parts;
mod ready;
mod report;
mod sheet;
mod subject;
mod walk;
mod words;

pub use board::{Board, Shown};
pub use cell_laws::{board_laws, edit_laws, field_laws, log_laws, sheet_laws};
pub use change::Change;
pub use content::Content;
pub use edit::{Edit, MAX_CHANGES};
pub use entry::{Entry, MAX_ENTRIES};
pub use eval::add_content;
pub use fields::{ContentRefused, read_content};
pub use kept_values::KeptValues;
pub use labels::Labels;
pub use laws::value_laws;
pub use parts::Part;
pub use report::Report;
pub use sheet::Sheet;
pub use subject::SheetSubject;
pub use walk::{all_values, range_values};
