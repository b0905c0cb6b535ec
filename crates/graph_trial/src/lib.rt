//! Trials of edges, of the graphs that keep them, and of what stands over such a graph: chains and fills.
//!
//! The crate offers nothing. Its tests run each call of edges, graphs, walks, chains and fills where there is memory,
//! and compare a few answers with what a person finds. What all answers are, the clauses of those crates say.
//!
//! Below stand `edge_patterns`, `taco_graph` over the indexes of ranges, `plain_graph` with the walks of `graph_walk`,
//! `dep_path` and `sheet_fill`.
#![tactic(auto)]

#[cfg(test)]
mod edge_tests;
#[cfg(test)]
mod edge_texts;
#[cfg(test)]
mod fill_tests;
#[cfg(test)]
mod path_tests;
#[cfg(test)]
mod plain_tests;
#[cfg(test)]
mod run_tests;
#[cfg(test)]
mod runs;
#[cfg(test)]
mod taco_tests;
