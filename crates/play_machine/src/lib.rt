//! The play machine: the steps of a script over a sheet, one after the other, and what is shown of it.
//!
//! An edit marks its cells and all cells that depend on them with its number; a turn of work clears one mark. What a
//! look shows of a cell is its mark, or its value where it has none. What each command does, and in which order turns
//! clear marks, `specs/Machine.antt` says; `play` makes the reports of all steps. Values are kept from look to look,
//! and what turns go by from one work to the next, but for the cells that an edit touches.
//!
//! Below stand `edit_log`, whose book finds the cells that an edit touches, `edit_script` and `sheet_model`; `live_run`
//! and the program, which prints the reports, stand above.
#![tactic(auto)]

mod laws;
mod machine;
mod marked_cells;
mod marks;
mod queue;
mod steps;
mod waiter;

pub use laws::play_laws;
pub use steps::play;
