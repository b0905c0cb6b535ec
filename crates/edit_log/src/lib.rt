//! The graph of a sheet, and the book of its edits.
//!
//! A sheet's pairs are those of each cell whose formula refers to a range, with that range
//! (`specs/Pairs.antt`). `graph_of` gives a graph exactly these: those of a run of formulas that follow one another
//! down a column (`specs/Runs.antt`) by one call, and those of rows after all of these (`specs/Waiting.antt`).
//!
//! A `Book` is a sheet with its graph and the log of its edits, which agree at every moment (`specs/Books.antt`).
//! `prepare` finds the cells that an edit touches, by one walk from all cells that it changes, and takes all memory;
//! `apply` then makes the edit and can't fail. Which cells an entry touches, `specs/Touches.antt` says: its own and all
//! that depend on one of them. `touch_laws` says that every other cell keeps its value, and by this an `OverSheet` is
//! what the marks of a sheet are about. `place_laws`, `pair_laws` and `book_laws` say what holds of places, of pairs
//! and inputs, and of books; `book_crosses` that threads may share a book under a lock. `on_cycle` answers by a set of
//! cells that the book keeps, which has each cell on a cycle (`specs/Cycles.antt`). `take_values` and `keep_values` let
//! a book keep values of its sheet's cells through its edits.
//!
//! Below stand `sheet_refs`, `formula_syntax`, `sheet_model`, `graph_walk` and `mark_core`.
#![tactic(auto)]

mod book;
mod crossing;
mod cycles;
mod graphs;
mod laws;
mod listing;
mod over_sheet;
mod prepared;
mod preparing;
mod reaches;
mod refused;
mod replacing;
mod rows;
mod runs;
mod values;
mod waiting;

pub use book::Book;
pub use crossing::book_crosses;
pub use graphs::graph_of;
pub use laws::{book_laws, pair_laws, place_laws, touch_laws};
pub use over_sheet::OverSheet;
pub use prepared::{Applied, Prepared};
pub use refused::PrepareRefused;
