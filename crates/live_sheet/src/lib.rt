//! Live sheets: clients edit and look while workers recalculate.
//!
//! A `Live` has the words of one table, one queue of jobs, and behind a lock the book, the editor's seat and the desks
//! that settle. Clients hold passes and workers hold desks. Which table, queue and opening sheet all these belong to, a
//! `Naming` says, whose name each type has as its parameter (`specs/Held.antt`).
//!
//! `edit` is answered once its cells are marked and it is committed (`specs/Edited.antt`; what it does behind the lock,
//! `specs/Edits.antt` says); `look` takes no lock, no runtime and no memory (`specs/Looks.antt`). `firm` and `settle`
//! compute what is stale first, level by level (`specs/Ranges.antt`, `specs/Levels.antt`, `specs/Firm.antt`). All speak
//! of the pass that they are lent (`specs/Passes.antt`, `specs/Accepted.antt`). `work` is one turn at a worker's desk
//! (`specs/Worked.antt`), and `settle_slice` computes some stale cells there that no job names (`specs/Slices.antt`).
//! `close` settles and gives the log, the sheet and the values of all cells (`specs/Closed.antt`).
//!
//! Below stand `edit_log` over a compressed graph, `mark_words` and `recalc_workers`; above, the program.
#![tactic(auto)]

mod closed;
mod closed_cells;
mod closed_words;
mod closing;
mod codes;
mod committed;
mod crossing;
mod desk;
mod desks;
mod edit;
mod entering;
mod firm_cells;
mod firming;
mod gathering;
mod graph;
mod left;
mod live;
mod loads;
mod locked;
mod locked_edit;
mod looking;
mod marking;
mod meeting;
mod naming;
mod office;
mod opened;
mod opening;
mod pass;
mod passes;
mod reading;
mod rest;
mod room;
mod round;
mod setting_up;
mod settle;
mod settle_range;
mod setup;
mod sharing;
mod slicing;
mod slots;
mod stale;
mod stocking;
mod store;
mod stored;
mod valuing;
mod whole;
mod working;

pub use closed::{Closed, NotClosed};
pub use committed::{Committed, EditRefused};
pub use desk::Desk;
pub use graph::LiveGraph;
pub use left::Left;
pub use live::Live;
pub use loads::Loads;
pub use naming::Naming;
pub use opened::Opened;
pub use pass::Pass;
pub use setup::Setup;
pub use sharing::{desks_cross, live_crosses, passes_cross};
