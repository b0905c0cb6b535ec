//! Dependency graphs of sheets, and walks over them.
//!
//! A `Graph` means a set of pairs of a range and a cell whose formula refers to it, and answers which cells depend
//! directly on a range and on which it depends. What depends on a range in any number of steps is defined by lists of
//! cells (`specs/Graphs.antt`); `reach_laws` and `back_laws` say that this is the least set that has the range and is
//! closed under a step. `dependents`, `precedents` and `on_cycle` answer it, and `dependents_of_all` for several ranges
//! by one walk, exactly over every graph, whatever its `ahead` and `behind` answer between the direct ones and all.
//! What calls leave to each cell is a law (`change_laws`). Pairs come cell by cell (`replace`), or for a run of cells
//! whose ranges follow one another (`add_run`), as those of formulas do that were filled down.
//!
//! It stands on `sheet_refs` alone; graphs of other crates implement the trait.
#![tactic(auto)]

mod gathering;
mod graph;
mod laws;
mod series;
mod walk;

pub use gathering::gather;
pub use graph::Graph;
pub use laws::{back_laws, change_laws, list_laws, reach_laws, start_laws};
pub use series::Series;
pub use walk::{dependents, dependents_of_all, on_cycle, precedents};
