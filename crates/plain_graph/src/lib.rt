//! A dependency graph that keeps its pairs as a list: the slow and plain one.
//!
//! Its pairs are a list (`specs/Plain.antt`), and what its calls promise is the contract of `Graph`. Each query looks
//! at each pair once, and adds one range for each pair that it finds. A change looks at all pairs too, and takes no
//! memory: `reserve` makes room for the 255 pairs that a cell can have, for each change. A run's pairs are added one by
//! one, with no look at those that there are, once there is room for all of them.
//!
//! Below stand `sheet_refs`, and `graph_walk` with the trait and the walks over it. Above it stand tests, of graphs
//! and of books of edits; the program keeps its pairs as edges, in `taco_graph`.
#![tactic(auto)]

mod plain;

pub use plain::PlainGraph;
