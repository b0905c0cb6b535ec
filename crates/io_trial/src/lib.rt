//! Trials of what is read and written: of `sheet_io` and `sink_buffer`.
//!
//! The crate offers nothing. Its tests show what no clause of those crates says: that calls succeed with ample memory,
//! what real files and writers do, and how many puts a text takes. They stand apart from those crates so that neither
//! is proved once more with its tests.
#![tactic(auto)]

#[cfg(test)]
mod buffers;
#[cfg(test)]
mod texts;
