use sheet_refs::Cell;

/// Stale cells by levels, and those of them from which steps to stale precedents lead into a cycle.
#[derive(Drop)]
pub struct Plan {
    /// From the level to compute first; within one the order means nothing.
    pub levels: Vec<Vec<Cell>>,
    /// In an order that means nothing.
    pub circular: Vec<Cell>,
}
