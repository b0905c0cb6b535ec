/// Why a client's part of a run ends early.
#[derive(Clone, Copy, Debug, PartialEq, Eq)]
pub(crate) enum Cut {
    /// There was no memory.
    Memory,
    /// The log was full.
    FullLog,
}
