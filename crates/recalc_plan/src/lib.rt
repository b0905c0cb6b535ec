//! In which order stale cells are recalculated.
//!
//! `plan` sorts stale cells into levels: the stale direct precedents of a cell stand in earlier levels, and no cell
//! could stand in an earlier level than it does (`specs/Plans.antt`, `plan_laws`). The cells of one level can be
//! computed side by side. Stale cells from which steps to stale precedents lead into a cycle stand in no level.
//!
//! A cell that isn't ready waits on one stale direct precedent that stands in no level yet, which is called open. Where
//! a level is taken out, those that wait on its cells look for another open one, and either wait on that or are of the
//! next level. So a cell comes just behind the last of its stale direct precedents, hence in no level that is too late.
//! Those that still wait where no cell is ready are the circular ones.
//!
//! Below stand `sheet_refs`, and `graph_walk` with the graphs that are asked; above stands what recalculates sheets.
#![tactic(auto)]

mod laws;
mod levels;
mod opens;
mod planner;
mod scheduling;
mod waiter;

pub use laws::plan_laws;
pub use levels::Plan;
pub use scheduling::plan;
