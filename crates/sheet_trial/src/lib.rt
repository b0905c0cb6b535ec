//! Trials of sheets: of `sheet_model`, and of `csv_sheet`, which reads them.
//!
//! The crate offers nothing. Its tests show what no clause of those crates says: that sheets are read, refused and
//! copied where there is memory. What fields, values and texts of sheets mean is shown as data, by the cases of
//! `tests/cli`. The tests are apart from those crates so that neither is proved once more with its tests.
#![tactic(auto)]

#[cfg(test)]
mod copies;
#[cfg(test)]
mod texts;
