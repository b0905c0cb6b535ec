#![tactic(auto)]

use crate::words::Clean;

/// One atomic step of one view. `E` is the type of the edits' entries. View 0 is the editor's.
#[derive(Debug, Drop)]
pub enum Event<E> {
    /// Load the count of commits.
    See { view: u32 },
    /// Mark a place for the entry, which is pending from then on.
    Mark { view: u32, entry: E, place: u32 },
    /// Count one commit more: the pending entry joins the log.
    Commit { view: u32, entry: E },
    /// Make a new view that knows what this one does.
    Split { view: u32 },
    /// Hand all that `other` knows to `view`; `other` is spent.
    Join { view: u32, other: u32 },
    /// Load the clean word of a place, which begins a read of it.
    ReadClean { view: u32, place: u32 },
    /// Load the value of the place.
    ReadValue { view: u32, place: u32 },
    /// Load the mark of the place, which ends the read.
    ReadMark { view: u32, place: u32 },
    /// Hold the place where its clean word is still the one that was seen.
    Claim { view: u32, place: u32, seen: Clean },
    /// Store the value of a held place.
    Put { view: u32, place: u32, word: u64 },
    /// Give a held place back, as computed for this mark.
    Finish { view: u32, place: u32, mark: u64 },
}

/// What an event answers: the length of the log after a see or a commit, what a read loaded, whether
/// a claim found the clean word that it expected, the number of the new view, and `Done` otherwise.
#[derive(Clone, Copy, Debug, PartialEq, Eq)]
pub enum Outcome {
    Done,
    Count(u64),
    Clean(Clean),
    Word(u64),
    Mark(u64),
    Claimed(bool),
    Seat(u32),
}
