use crate::desk::Desk;
use crate::live::Live;
use crate::naming::Naming;
use crate::pass::Pass;
use sheet_model::{Entry, Sheet};

/// What a live sheet leaves when it is closed: the log, the sheet after it, and the code of the value of each cell, row
/// by row.
#[derive(Drop)]
pub struct Closed {
    pub log: Vec<Entry>,
    pub sheet: Sheet,
    pub values: Vec<u64>,
}

/// Want of memory at closing: all that was handed in comes back.
#[derive(Drop)]
pub struct NotClosed<N: Naming> {
    pub live: Live<N>,
    pub passes: Vec<Pass<N>>,
    pub desks: Vec<Desk<N>>,
}
