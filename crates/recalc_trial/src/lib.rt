//! Trials of recalculation across crates: the queue of jobs, plans over a graph, and turns of a desk over a book of
//! edits.
//!
//! No crate is built on it, but the program of `bench/settle` is. `BookOffice` is the plainest office: it owns a book
//! and the editor's seat, with no lock. What was done before a turn brings about its answer: which cells are to be
//! computed, which jobs are offered, what another seat holds, and what the office marks while it is asked for a task.
//! Settling is tried by live sheets, in `live_trial`.
//! Below are `recalc_plan`, `recalc_workers`, `edit_log`, `mark_words`, and `plain_graph`, a graph that is its list
//! of pairs.
#![tactic(auto)]

mod crossing;
#[cfg(test)]
mod hand_tests;
mod lending;
mod office;
mod opening;
#[cfg(test)]
mod plan_tests;
#[cfg(test)]
mod sheets;
#[cfg(test)]
mod turn_tests;

pub use crossing::{entries_cross, subject_crosses};
pub use office::BookOffice;
pub use opening::opening_codes;
