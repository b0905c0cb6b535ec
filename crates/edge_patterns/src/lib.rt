//! Compressed edges of a sheet's formula graph, after TACO (Tang et al., ICDE 2023).
//!
//! An [`Edge`] stands for a run of cells, one cell wide, and for the range to which each of them refers: the ranges
//! follow one of six patterns, so that the run, the smallest rectangle with all ranges and the pattern tell them all
//! (`specs/Edges.antt`). Contracts see an edge as these three parts and as its set of pairs of a range and a cell.
//! `direct`, `spread` and `back` answer one range in constant time, whatever the length of the run
//! (`specs/Queries.antt`). `join` finds the one edge with the pairs of two, wherever there is one, and `split` takes a
//! cell out (`specs/Joins.antt`). No call takes memory.
//!
//! Below stands `sheet_refs`; the compressed graph stands above.
#![tactic(auto)]

mod axis;
mod edge;
mod joins;
mod laws;
mod queries;
mod splits;

pub use edge::{Edge, Pattern};
pub use joins::{filled, join};
pub use laws::edge_laws;
pub use queries::{back, direct, spread};
pub use splits::split;
