use sheet_refs::Cell;

/// What happens at two moments of a run, so that a test can let another thread work just then.
pub trait Gate {
    /// Called between a claim of the cell and its put.
    fn between(&self, cell: Cell);

    /// Called ahead of each command of a client, with no lock held. Commands are numbered from 1.
    fn before(&self, client: u32, number: u32);
}

/// The gate at which nothing happens.
#[derive(Clone, Copy, Debug, PartialEq, Eq)]
pub struct OpenGate;

impl Gate for OpenGate {
    fn between(&self, _: Cell) {}

    fn before(&self, _: u32, _: u32) {}
}
