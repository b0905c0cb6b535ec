//! Trials of names, values and formulas: of `sheet_refs`, `value_core`, `formula_syntax` and `formula_eval`.
//!
//! The crate offers nothing. Its tests show what no clause of those crates says, and no run of the program: that the
//! definitions of names, references and codes mean what a person who knows spreadsheets expects, and which cell
//! evaluation names where a value isn't known. Operators, functions, the grammar and printed forms are shown as data,
//! by the cases of `tests/cli`.
#![tactic(auto)]

#[cfg(test)]
mod evaluation;
#[cfg(test)]
mod formulas;
#[cfg(test)]
mod names;
#[cfg(test)]
mod values;
