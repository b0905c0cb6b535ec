//! Work for threads: jobs that wait in one queue, a worker's turn at one of them, and the settling of stale cells.
//!
//! A job names a cell of the sheet and has at most 16 tries. Who offers or takes one does so by a `Hand`, a token that
//! knows the jobs that it put, that it was refused and that it took. A hand that is the queue's only one knows what the
//! queue holds, so its calls answer exactly by these lists (`specs/Hands.antt`, `hand_laws`); the rule of the queue is
//! in `specs/Rule.antt`.
//!
//! A `turn` at a `Desk` takes a job and computes its cell, from what an `Office` says of the cell's content, or answers
//! why it doesn't. Each answer has its cause in what the desk's seat noted in this call (`specs/Turns.antt`,
//! `turn_laws`), and in the lists of its hand (`specs/Again.antt`).
//!
//! `settle_values` puts the values of many cells at many desks for the editor's seat, which knows each of them as
//! clean afterwards; `settle_level` and `settle_circular` compute them there (`specs/Settling.antt`, `settle_laws`).
//! A `Gate` is what happens between a claim and its put: nothing, but in tests. A worker without a job goes on by
//! single visits: `find` reads a cell at a desk, and `put_once` puts a value there (`specs/Visits.antt`). Below stand
//! `sheet_refs`, `formula_eval`, `sheet_model`, `mark_words` and the kit's `crossbeam_queue`; above stands the live
//! sheet.
#![tactic(auto)]

mod causes;
mod cell_words;
mod clearing;
mod crossing;
mod desk;
mod evaluating;
mod finishing;
mod gates;
mod gathering;
mod hands;
mod inputs;
mod job;
mod jobs;
mod laws;
mod levels;
mod lookups;
mod notes;
mod office;
mod read_again;
mod reading;
mod refused_jobs;
mod rules;
mod settle_cells;
mod settlement;
mod settling;
mod sharing;
mod side_by_side;
mod taking;
mod task;
mod turns;
mod visits;
mod working;

pub use causes::turn_laws;
pub use desk::Desk;
pub use gates::{Gate, OpenGate};
pub use hands::{Hand, Jobs};
pub use job::Job;
pub use laws::hand_laws;
pub use office::Office;
pub use rules::{HandView, Queued};
pub use settlement::settle_laws;
pub use settling::{settle_circular, settle_level, settle_values};
pub use sharing::tell_desk;
pub use taking::turn;
pub use task::Task;
pub use turns::Turn;
pub use visits::{Found, find, put_once};
