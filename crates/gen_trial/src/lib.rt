//! Trials of generated runs: tests alone; no crate stands on it.
//!
//! What no clause of `live_gen` says: that a sheet and a script are drawn where there is memory, and that the numbers
//! of some cells, of steps, of pairs and of edges are those that a program in another language computed.
//!
//! Below stand `live_gen`, and `edit_log` and `taco_graph`, which find the sheet's edges. That the program runs what
//! numbers draw, `run_trial` shows.
#![tactic(auto)]

#[cfg(test)]
mod generated;
