//! The R-tree of ranges.
//!
//! A `TreeIndex` answers what every index of `range_index` answers: exactly the ids whose ranges overlap a query, each
//! once. Its entries stand in the leaves of a tree of rectangles, each of which has what stands below it; beside the
//! tree it notes each id with its range and its place (`specs/Trees.antt`).
//!
//! What it does to the tree is made of few small steps, each of which leaves a tree behind (`src/steps.rt`). Which
//! child an entry goes into and how a full node is split is decided by rectangles alone (`src/choices.rt`), and
//! nothing that is promised rests on it.
//!
//! Below stand `sheet_refs`, `range_index` with the trait, and the kit's `slab` and `arrayvec`.
#![tactic(auto)]

mod changes;
mod choices;
mod finding;
mod node;
mod nodes;
mod notes;
mod rectangles;
mod splits;
mod steps;
mod tree;
mod ways;

pub use tree::TreeIndex;
