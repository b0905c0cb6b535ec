use sheet_refs::{Cell, Memory};

/// Why an edit is not prepared.
#[derive(Clone, Copy, Debug, PartialEq, Eq)]
pub enum PrepareRefused {
    /// Its cell is outside the sheet.
    OutOfSheet {
        /// The cell.
        cell: Cell,
    },
    /// The log has as many entries as it may have.
    LogFull {
        /// Their number: 1,048,576.
        length: u64,
    },
    /// There was no memory.
    Memory,
}

impl From<Memory> for PrepareRefused {
    ghost use Rattle.std.specs.Prelude.{◌≡◌};
    ghost use Rattle.edit_log.specs.declared.refused.PrepareRefused.TheVariants as refused;

    ghost from_gives = { λ _ e. e ≡ refused.Memory };

    fn from(_: Memory) -> PrepareRefused {
        PrepareRefused::Memory
    }
}
