//! Trials of live sheets over their calls: tests alone; no crate stands on it.
//!
//! What no clause says: that a live sheet is answered where there is memory, that an edit computes nothing, and that
//! turns at a desk compute. The expected texts were worked out by hand. `working` edits, works and settles, `closing`
//! closes what nobody worked at, `dropped` edits more cells than jobs find room, and `undoing` undoes an edit of a
//! closed log. `held` looks and edits while a worker is held at the gate of `gate`. `single`, `stories`, `edits`,
//! `fields` and `texts` are what these tell their stories by.
//!
//! Below are `live_sheet`, `sheet_undo`, and `trial_parts` with the hold of a gate.
#![tactic(auto)]

#[cfg(test)]
mod closing;
#[cfg(test)]
mod dropped;
#[cfg(test)]
mod edits;
#[cfg(test)]
mod fields;
#[cfg(test)]
mod gate;
#[cfg(test)]
mod held;
#[cfg(test)]
mod single;
#[cfg(test)]
mod stories;
#[cfg(test)]
mod storing;
#[cfg(test)]
mod texts;
#[cfg(test)]
mod undoing;
#[cfg(test)]
mod working;
