//! Which of many ranges overlap a query.
//!
//! An index holds ids, each with a range (`specs/Entries.antt`), and answers exactly the ids whose ranges
//! overlap a query, each once. `ListIndex` is the slow and plain one, `GridIndex` the one by tiles. `index_laws` says
//! what is there after any list of calls: under each id the range that its last call left to it.
//!
//! Below stands `sheet_refs`; the compressed graph stands above, by the tree of `tree_index`.
#![tactic(auto)]

mod changes;
mod grid;
mod index;
mod item;
mod laws;
mod list;
mod packing;
mod tables;
mod tiles;

pub use grid::GridIndex;
pub use index::{InsertOrder, RangeIndex};
pub use item::Item;
pub use laws::index_laws;
pub use list::ListIndex;
pub use packing::{packing_key, size_class};
