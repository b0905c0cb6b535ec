//! A dependency graph that keeps cells whose references follow a pattern as one edge, after TACO (Tang et al.,
//! ICDE 2023).
//!
//! A `Taco` keeps edges in a slab, no pair in two of them, and files each under its key in two indexes: in the one with
//! its run, in the other with the smallest rectangle that has its ranges (`specs/Stores.antt`); one that is made
//! `by_runs` leaves the second one empty until it is told to file all rectangles (`file_rectangles`). Its pairs are
//! those of its edges (`specs/Pairs.antt`). What its calls promise is the contract of `Graph`, and that a query adds at
//! most one range for each edge, with exactly its answer (`specs/Answers.antt`), and that no two edges can be joined,
//! whatever changes came (`specs/Joinable.antt`). `edges` lists edges that stand for the pairs, `pair_count` counts
//! them, `taco_laws` says that neither answers nor edges are more than they need be, `order_laws` how they are listed,
//! and `join_laws` where there is one edge.
//!
//! A query looks at the edges that an index names, or at each edge where rectangles aren't filed. A change takes the
//! cell out of the edges that hold it and joins what is left and what comes with edges at the sides of its run
//! (`specs/Sides.antt`).
//!
//! Below stand `sheet_refs`, `graph_walk` with the trait, `edge_patterns`, `range_index` with the trait of indexes, and
//! `tree_index`, over which the program has its graph (`SheetGraph`).
#![tactic(auto)]

mod answers;
mod changes;
mod counting;
mod filing;
mod laws;
mod near;
mod neighbours;
mod order;
mod side;
mod store;
mod taco;

pub use counting::pair_count;
pub use laws::{join_laws, order_laws, taco_laws};
pub use taco::{SheetGraph, Taco};
