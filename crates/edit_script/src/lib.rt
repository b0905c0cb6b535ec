//! Scripts: edits and looks of several clients, a line each.
//!
//! What a line says is a relation with a case a kind of line (`specs/Lines.antt`); lines are those of the
//! kit's `bstr`, without the LF or CR LF that ends them. What lines bring is counted from the first on: the
//! clients, the edits, the cells of windows, and of an open batch the cells that it changes. A text has one answer,
//! a script, or the first line that is refused, by the first of its causes, or the line of a batch that isn't
//! ended (`specs/Scripts.antt`), and `read_script` gives it.
//!
//! Below stand `sheet_refs`, `value_core`, `formula_syntax`, `sheet_model` and the kit's `bstr`; `play_machine` and the
//! program stand above.
#![tactic(auto)]

mod batch;
mod clients;
mod faults;
mod laws;
mod line;
mod progress;
mod reading;
mod refused;
mod script;

pub use laws::script_laws;
pub use reading::read_script;
pub use refused::ScriptRefused;
pub use script::{Command, Mode, Script, Step};
