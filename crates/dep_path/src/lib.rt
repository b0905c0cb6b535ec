//! Shortest chains of references: how one cell comes to depend on another.
//!
//! A chain is a list of cells in which each depends directly on the one before (`specs/Chains.antt`). `path` answers a
//! shortest one from a cell to another, or that there is none, exactly where the other isn't reached; `is_chain`
//! decides whether a list is one. `chain_laws` says the same of lists of cells alone.
//!
//! The way out goes by whole levels, each a list of ranges of the cells that are one step further; the way back by
//! direct precedents, a cell a level.
//!
//! It stands on `sheet_refs` and `graph_walk`, over every graph.
#![tactic(auto)]

mod chains;
mod laws;
mod outward;
mod paths;
mod steps;

pub use chains::is_chain;
pub use laws::chain_laws;
pub use paths::path;
