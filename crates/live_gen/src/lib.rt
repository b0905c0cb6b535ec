//! Generated runs: a sheet and a script that are drawn from a number, and what every run of them comes to.
//!
//! The numbers that are drawn are one sequence (`specs/Draws.antt`). The sheet is said field by field, as its text
//! would write it (`specs/Rows.antt`), the script step by step (`specs/Generated.antt`), and both take what they need
//! from the sequence by its place there; `generate` gives exactly these. The clients of the script change no cell of
//! one another, so it doesn't matter in which order their edits are logged: that is a law of any logs
//! (`specs/Apart.antt`), and every legal run of a generated script ends with one sheet (`specs/Laws.antt`).
//! `sum_of_numbers` adds up what its cells show (`specs/Sums.antt`).
//!
//! Below stand `live_run`, which says what a legal run is, `edit_script`, `sheet_model` and `window_text`; above, the
//! program.
#![tactic(auto)]

mod column;
mod draws;
mod generating;
mod laws;
mod scripting;
mod sheeting;
mod summing;

pub use generating::generate;
pub use laws::{drawn_laws, generated_laws, order_laws};
pub use summing::sum_of_numbers;
