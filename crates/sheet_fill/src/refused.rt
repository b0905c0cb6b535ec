use sheet_refs::Memory;

/// Why a range isn't filled.
#[derive(Clone, Copy, Debug, PartialEq, Eq)]
pub enum FillRefused {
    /// The range is the source alone.
    Nothing,
    /// More cells would change than an edit may change, 1,024.
    TooMany {
        /// How many.
        cells: u64,
    },
    /// There was no memory.
    Memory,
}

impl From<Memory> for FillRefused {
    ghost use Rattle.std.specs.Prelude.{◌≡◌};
    ghost use Rattle.sheet_fill.specs.declared.refused.FillRefused.TheVariants as refused;

    ghost from_gives = { λ _ e. e ≡ refused.Memory };

    fn from(_: Memory) -> FillRefused {
        FillRefused::Memory
    }
}
