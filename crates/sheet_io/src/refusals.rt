// What a call of this crate answers where it isn't done.
ghost use Rattle.std.specs.Prelude.{◌≡◌};

use std::alloc::AllocError;

/// Want of memory.
#[derive(Clone, Copy, Debug, PartialEq, Eq)]
pub struct Memory;

impl From<AllocError> for Memory {
    fn from(_: AllocError) -> Self {
        Memory
    }
}

/// A sink couldn't take a whole piece: its count of faults rose.
#[derive(Clone, Copy, Debug, PartialEq, Eq)]
pub struct Failed;

/// Why a text wasn't fetched.
#[derive(Clone, Copy, Debug, PartialEq, Eq)]
pub enum Fetch {
    /// The shelf couldn't read the text: its count of faults rose.
    Failed,
    /// The text has more bytes than the caller's limit.
    TooLong,
    /// Want of memory for the text.
    Memory,
}

impl From<AllocError> for Fetch {
    ghost use Rattle.sheet_io.specs.declared.refusals.Fetch.TheVariants.{Memory};

    ghost from_gives = { λ _ refusal. refusal ≡ Memory };

    fn from(_: AllocError) -> Self {
        Fetch::Memory
    }
}
