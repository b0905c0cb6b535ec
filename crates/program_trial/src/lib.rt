//! Trials of the program's one call: tests alone; no crate stands on it.
//!
//! What no clause says: that a run succeeds where memory is ample, that the statuses and lines are those meant, and
//! that a run ends by the call that failed. `program` has the call answer words and texts, `faults` has each put and
//! each fetch of every command fail, and `lines` is how both run a line. Live runs, whose output turns on threads, are
//! tried in `run_trial`.
//!
//! Below stand `sheet_cli`, and `sheet_io` with the shelves and sinks that fail by a list.
#![tactic(auto)]

#[cfg(test)]
mod faults;
#[cfg(test)]
mod lines;
#[cfg(test)]
mod program;
