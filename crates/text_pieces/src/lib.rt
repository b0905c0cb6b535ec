//! Texts that are handed out in pieces.
//!
//! A text goes piece by piece to a function that the caller gives, which answers whether it takes more; after the
//! first false nothing more is handed out, and the answer is false (`specs/Pieces.antt`). `piece_laws` says of all
//! calls together what was handed out. Here stand the pieces that several texts have: bytes, and the names of cells,
//! ranges and references. No call takes memory.
//!
//! Below stands `sheet_refs`, whose names these are; the printers of formulas and of the program's texts stand above.
#![tactic(auto)]

mod laws;
mod names;
mod pieces;
mod written;

pub use laws::piece_laws;
pub use names::{send_cell, send_range, send_reference};
pub use pieces::send;
