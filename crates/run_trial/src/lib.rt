//! Trials of live runs of the whole program: tests alone; no crate stands on it.
//!
//! What no clause says: that runs come to their end where there is memory, that clients and workers go on side by
//! side, and that workers compute. `script` has the program run, over texts and with an output that are in memory and
//! don't fail. `texts` reads what is printed, and `threads` does so with gates (`gates`) that hold clients and
//! workers until others have come as far. `background` shows what workers compute of cells that no job names.
//! `generated` runs what a number draws, and notes which cells the workers compute.
//!
//! Below are `sheet_cli`, and `trial_parts` with the hold of a gate.
#![tactic(auto)]

#[cfg(test)]
mod background;
#[cfg(test)]
mod gates;
#[cfg(test)]
mod generated;
#[cfg(test)]
mod script;
#[cfg(test)]
mod texts;
#[cfg(test)]
mod threads;
