//! Tables of texts: distinct texts, each at its place in the order in which they were added.
//!
//! A text is asked for by its bytes, and is added where it isn't there (`specs/Tables.antt`). It is found by a fixed
//! hash among the at most eight texts of a bucket, and where a bucket is full by order, in a map that is sorted by
//! text (`specs/Filing.antt`). Whoever picks texts of one hash so pays a logarithm more for each, and no more: no
//! search goes through all of them. `README.md` says how.
//!
//! Below stands `sheet_refs`, for its refusal of memory, and the kit's `arrayvec`; the labels of sheets stand above.
#![tactic(auto)]

mod filing;
mod index;
mod table;

pub use table::TextTable;
