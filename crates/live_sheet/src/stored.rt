use sheet_model::Content;
use sheet_refs::Cell;

/// What stands in a cell after a number of entries.
#[derive(Drop)]
pub(crate) struct Stored {
    pub(crate) cell: Cell,
    /// The number of entries.
    pub(crate) count: u64,
    pub(crate) content: Content,
    /// Whether the cell may be on a cycle then.
    pub(crate) may_be_on_cycle: bool,
}
