//! The sheet of a text: records of fields as CSV has them, a row for each record.
//!
//! What the records of a text are is what the kit's `csv` reads, with no header row and its other settings as they
//! are by default, once the byte order marks at the front and a line that names the edition of the functions
//! (`specs/Headings.antt`) are taken off; nothing of quoting is said here again. A text has one answer, a sheet or
//! the first cause why it has none (`specs/Results.antt`). `load` gives it, and `load_in_threads` gives the same by
//! several threads. What a field holds, and which texts of labels a sheet has, `sheet_model` says.
//!
//! Below stand `sheet_refs`, `formula_syntax`, `sheet_model`, the kit's `csv` and `memchr`, and, in definitions and
//! proofs alone, `value_core`; above stand `sheet_cli` and `live_example`.
#![tactic(auto)]

mod ahead;
mod extent;
mod heading;
mod known;
mod laws;
mod lines;
mod loading;
mod reader;
mod records;
mod refused;
mod rows;

pub use laws::load_laws;
pub use loading::{load, load_in_threads};
pub use refused::SheetRefused;
