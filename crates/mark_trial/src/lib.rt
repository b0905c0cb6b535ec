//! Trials of the marks protocol: the machine event by event, and threads over a table of words.
//!
//! Tests alone; no crate is built on it. `machine` has events happen, or be refused, over the two cells of `two_cells`.
//! `words` has an editor, workers and viewers step on one table, two of them in threads of their own; what these tests
//! keep of seats and reads is in `specs/Threads.antt`.
//!
//! Below are `mark_core` and `mark_words`.
#![tactic(auto)]

#[cfg(test)]
mod machine;
#[cfg(test)]
mod two_cells;
#[cfg(test)]
mod words;
