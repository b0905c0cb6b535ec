use mark_core::Clean;

/// What one read of a place loaded: its clean word, its value and its mark, in this order.
#[derive(Clone, Copy, Debug, PartialEq, Eq)]
pub struct Loads {
    /// The clean word.
    pub clean: Clean,
    /// The value, as a code.
    pub word: u64,
    /// The mark.
    pub mark: u64,
}
