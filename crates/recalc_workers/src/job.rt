use sheet_refs::Cell;

/// A cell that is to be computed, and how often that may be tried, 16 times at most.
#[derive(Clone, Copy, Debug, PartialEq, Eq)]
pub struct Job {
    /// The cell.
    pub cell: Cell,
    /// The tries that are left.
    pub tries: u8,
}
