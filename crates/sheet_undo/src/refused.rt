use sheet_refs::{Cell, Memory};

/// Why an entry isn't undone.
#[derive(Clone, Copy, Debug, PartialEq, Eq)]
pub enum UndoRefused {
    /// The log has no entry of this number.
    NoSuchEdit {
        /// The number of its entries.
        length: u64,
    },
    /// A later entry changes a cell of this one.
    Overtaken {
        /// The number of the first entry that does, counted from 1.
        by: u64,
        /// The first cell of the entry that was to be undone, in its order, that the later one changes.
        cell: Cell,
    },
    /// There was no memory.
    Memory,
}

impl From<Memory> for UndoRefused {
    ghost use Rattle.std.specs.Prelude.{◌≡◌};
    ghost use Rattle.sheet_undo.specs.declared.refused.UndoRefused.TheVariants as refused;

    ghost from_gives = { λ _ e. e ≡ refused.Memory };

    fn from(_: Memory) -> UndoRefused {
        UndoRefused::Memory
    }
}
