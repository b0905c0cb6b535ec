use sheet_model::Content;

/// What a turn computes: the content of its cell, after this many entries.
#[derive(Drop)]
pub struct Task {
    /// What stands in the cell.
    pub content: Content,
    /// The number of entries.
    pub length: u64,
}
