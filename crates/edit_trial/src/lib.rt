//! Trials of edits: the graphs of sheets, books of edits and the scripts that bring them.
//!
//! Tests alone; no crate is built on it. `graphs` asks the graph of a small sheet, `books` makes edits one by one,
//! `cycles` asks after each of some edits which cells are on a cycle, `slices` finds values of a book's sheet a few
//! steps at a time, and `scripts` reads scripts. What graphs and scripts are is shown as data besides, by the cases of
//! `tests/cli`.
//!
//! Below are `edit_log`, over the list of pairs of `plain_graph`, and `edit_script`.
#![tactic(auto)]

#[cfg(test)]
mod books;
#[cfg(test)]
mod cycles;
#[cfg(test)]
mod graphs;
#[cfg(test)]
mod scripts;
#[cfg(test)]
mod slices;
