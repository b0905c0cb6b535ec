use mark_core::Clean;
use sheet_refs::Cell;

/// What a turn came to.
#[derive(Clone, Copy, Debug, PartialEq, Eq)]
pub enum Turn {
    /// The cell was claimed, filled and finished, for the mark that was read.
    Done(Cell),
    /// There was no job.
    Idle,
    /// The cell was read as computed for its mark.
    Nothing(Cell),
    /// The cell's mark is that of an entry past those from which the turn computes.
    Later {
        /// The cell.
        cell: Cell,
        /// Its mark.
        mark: u64,
        /// The number of entries from which the turn computes.
        met: u64,
    },
    /// An input of the cell was read as not yet computed for its mark, or as computed for an entry past those from
    /// which the turn computes; and the cell is on no cycle.
    Stale {
        /// The cell.
        cell: Cell,
        /// The input.
        input: Cell,
        /// The number of entries from which the turn computes.
        met: u64,
    },
    /// The cell is held, or was when it was to be claimed, or was computed meanwhile.
    Busy {
        /// The cell.
        cell: Cell,
        /// Its clean word as it was read.
        seen: Clean,
        /// The same, where it is held; else the one that the claim found.
        found: Clean,
    },
    /// There was no memory.
    Memory(Cell),
}
