//! Filling a range with what one cell holds: the copy in each other cell, and the one edge that a filled run is.
//!
//! `fill` gives the edit that copies a cell's content to the other cells of a range, row by row (`specs/Filling.antt`):
//! a formula with its references shifted by the way from the source, anything else as it is. `filled_edge` gives the
//! edge of a run of cells that is filled with one reference, where one edge has just these pairs
//! (`specs/FilledRuns.antt`). `fill_laws` says what a filled range holds, to which ranges a filled run refers, and that
//! a graph of joined edges with just the pairs of a filled run has one edge: that a fill compresses. It says too that
//! the text of such an edit, taken as a script over the same sheet, is that edit (`specs/FilledTexts.antt`).
//! `copied_laws` says what the copy of a formula is (`specs/MovedReferences.antt`), and `fill_row_laws` has fills that
//! were worked out by hand. `read_back_laws` says which contents of a sheet are read back from their printed text
//! (`specs/ReadBack.antt`).
//!
//! Below stand `sheet_refs`, `formula_syntax` with what a shift is, `sheet_model`, `edge_patterns`, `taco_graph`,
//! `edit_script` and `window_text`; above, the program.
#![tactic(auto)]

mod filling;
mod laws;
mod refused;
mod runs;

pub use filling::fill;
pub use laws::{copied_laws, fill_laws, fill_row_laws, read_back_laws};
pub use refused::FillRefused;
pub use runs::filled_edge;
