#![tactic(auto)]

use crate::words::{Finished, Half, Held, Known, Lost};
use std::collections::LinkedList;

/// What one actor knows and has done. `L` stands for the entries that it knows: the list of them, or how
/// many of the log they are. No program makes a value: contracts see an actor as one, be it a view of
/// the machine or a token that a thread steps with.
pub struct View<L> {
    /// Whether it was joined into another view.
    pub spent: bool,
    /// The entries that it knows.
    pub log: L,
    /// The greatest count of commits that it has seen.
    pub seen: u64,
    /// The counts that its see events loaded, in order.
    pub sees: LinkedList<u64>,
    /// Places that it knows as computed for a mark.
    pub known: LinkedList<Known>,
    /// Its begun read.
    pub half: Option<Half>,
    /// Its finished reads.
    pub reads: LinkedList<Finished>,
    /// The places that it holds.
    pub holds: LinkedList<Held>,
    /// What it finished, one for each finish.
    pub done: LinkedList<Known>,
    /// What its refused claims found, one for each refused claim.
    pub lost: LinkedList<Lost>,
}

/// The editor's part of the state: the log of committed entries, the entry that is being marked, and the
/// places marked for it. No program makes a value.
pub struct Edits<E> {
    /// The committed entries.
    pub log: LinkedList<E>,
    /// The entry that is being marked.
    pub pending: Option<E>,
    /// The places marked for it.
    pub marked: LinkedList<u32>,
}
