//! Live runs of scripts: each client's commands in a task of its own, beside workers that recalculate, and what the run
//! tells.
//!
//! What a run may tell, `specs/Legal.antt` says: one log that has each client's edits once and in order, and no others;
//! a report for each look, whose number covers the client's own edits before it and never falls, and in which each
//! value is the one that one thread computes after so many entries; and the sheet after the whole log. `run_live` gives
//! nothing else, whatever the sheet, the script that may be run over it (`specs/Runs.antt`), and the number of workers.
//!
//! Within, each client has a part, its commands with a report for each of its looks (`specs/Parts.antt`), and a task
//! (`specs/Client.antt`); all tasks come to their end before the live sheet is closed (`specs/Tasks.antt`).
//!
//! Below stand `live_sheet`, `edit_script` and `window_text`; above, the program.
#![tactic(auto)]

mod answering;
mod boards;
mod client;
mod cut;
mod ended;
mod laws;
mod look_orders;
mod order;
mod part;
mod ran;
mod run;
mod session;
mod sharing;
mod split;
mod tasks;
mod watch;
mod workers;

pub use laws::{legal_laws, plain_laws};
pub use run::run_live;
