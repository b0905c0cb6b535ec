//! Undoing one entry of a log of edits.
//!
//! `inverse` gives the edit that undoes an entry: it has the entry's cells, in the entry's order, each with what it
//! held before that entry (`specs/Undoing.antt`). It is refused where there is no such entry, and where a later entry
//! changes one of its cells, since then the undo would undo a part of that one too. The edit is an edit like any
//! other: made after the log it restores the entry's cells and leaves all others, and as one more entry of the log it
//! is undone by what the entry did. `undo_laws` says what holds of undoing twice, and of undoing several entries one
//! after the other.
//!
//! Below stand `sheet_refs` and `sheet_model`; above, the program.
#![tactic(auto)]

mod entry_cells;
mod inverting;
mod laws;
mod overtaking;
mod refused;
mod replaying;

pub use inverting::inverse;
pub use laws::undo_laws;
pub use refused::UndoRefused;
