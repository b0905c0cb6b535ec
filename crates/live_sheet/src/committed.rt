use sheet_refs::Cell;

/// An edit that was accepted.
#[derive(Clone, Copy, Debug, PartialEq, Eq)]
pub struct Committed {
    /// Its number in the log, counted from 1.
    pub number: u64,
}

/// Why an edit is refused.
#[derive(Clone, Copy, Debug, PartialEq, Eq)]
pub enum EditRefused {
    /// A cell that it changes is outside the sheet: the first one.
    OutOfSheet {
        /// The cell.
        cell: Cell,
    },
    /// The log has as many entries as it may have.
    LogFull {
        /// Their number: 1,048,576.
        length: u64,
    },
    /// There was no memory.
    Memory,
}
