use crate::desk::Desk;
use crate::live::Live;
use crate::naming::Naming;
use crate::pass::Pass;

/// A live sheet as it opens: with a pass for each client and a desk for each worker.
#[derive(Drop)]
pub struct Opened<N: Naming> {
    /// The live sheet.
    pub live: Live<N>,
    /// Pass i belongs to client i, counted from 0.
    pub passes: Vec<Pass<N>>,
    /// The workers' desks.
    pub desks: Vec<Desk<N>>,
}
