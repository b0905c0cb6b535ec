use crate::job::Job;
use sheet_refs::Cell;

/// Jobs that a hand was refused by one step of the queue.
#[derive(Drop)]
pub enum RefusedJobs {
    /// One job.
    One(Job),
    /// A new job for each cell of a list from a place on.
    Rest {
        /// The list.
        cells: Vec<Cell>,
        /// How many of its cells stand before them.
        from: usize,
    },
}
