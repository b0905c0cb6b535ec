//! Names of cells and ranges, ranges as sets of cells, and sets of ranges.
//!
//! A cell has a row and a column, counted from 1, within the limits of the names A1 to XFD1048576.
//! A range is the set of cells between two corners. Contracts see a cell as its position and a range
//! as its two corners (`specs/Cells.antt`); what a text names is a relation (`specs/Names.antt`).
//! The readers answer None exactly where the text names nothing. What two ranges have in common, and
//! what a list of ranges holds, is said over their cells (`specs/Rectangles.antt`), never over corners.
//! A `RectSet` is a set of cells; contracts see it as the list of its maximal vertical runs, which it
//! keeps in ordered maps, once for columns side by side that have the same rows (`specs/Runs.antt`,
//! `specs/Bands.antt`).
//!
//! Nothing stands below this crate. Every other crate speaks of cells through it.
#![tactic(auto)]

mod bands;
mod cell;
mod column;
mod end_names;
mod ends;
mod laws;
mod memory;
mod names;
mod pieces;
mod range;
mod rect_set;
mod refs;
mod sizes;

pub use cell::{Cell, MAX_COLS, MAX_ROWS};
pub use end_names::ref_of;
pub use ends::{End, Ref};
pub use laws::{name_laws, set_laws};
pub use memory::Memory;
pub use names::{cell_of, decimal_of, range_of};
pub use pieces::Pieces;
pub use range::Range;
pub use rect_set::RectSet;
pub use refs::{MAX_REFERENCES, Refs};
pub use sizes::{MAX_CELLS, Sizes};
