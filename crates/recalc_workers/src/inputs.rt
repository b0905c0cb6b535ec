use sheet_model::Part;
use sheet_refs::{Cell, MAX_REFERENCES, Memory};
use std::alloc::Global;

/// The inputs for whose words there is room at first.
const INPUTS: usize = 1_024;

/// What a turn read of the inputs of its cell: the parts of the ranges that the content names, within the sheet, and
/// the words of their cells, part by part, each row by row. Turns fill it one after the other; it takes memory only
/// where a content has more inputs than any before it.
#[derive(Drop)]
pub(crate) struct InputList {
    pub(crate) parts: Vec<Part>,
    pub(crate) words: Vec<u64>,
}

impl InputList {
    /// An empty list.
    pub(crate) fn new(alloc: Global) -> Result<InputList, Memory> {
        let parts = Vec::with_capacity(alloc, MAX_REFERENCES)?;
        let words = Vec::with_capacity(alloc, INPUTS)?;
        Ok(InputList { parts, words })
    }
}

/// Why the inputs of a cell weren't all read.
#[derive(Clone, Copy, Debug, PartialEq, Eq)]
pub(crate) enum Unread {
    /// This one isn't computed for its mark, or its mark is past the entries from which the turn computes.
    Outdated(Cell),
    /// There was no memory for the words.
    Memory,
}
