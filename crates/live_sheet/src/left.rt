/// What a slice leaves.
#[derive(Clone, Copy, Debug, PartialEq, Eq)]
pub enum Left {
    /// Nothing: each cell is clean.
    Nothing,
    /// Cells that other seats hold. Each other cell is clean.
    Held,
    /// Stale cells, perhaps.
    Some,
    /// There was no memory to look or to compute.
    Memory,
}
