#![tactic(auto)]

ghost use Rattle.std.specs.Prelude.{◌≡◌, ◌<◌, ◌↔◌, ◌++◌, ◌∷◌, [], ℕ, List, IsTrue, IfOk};

use crate::words::Memory;
use std::alloc::Global;

/// What the marks are about: numbered places whose worth depends on a list of edits. Each edit is an
/// entry that touches some of the places, and a place that it doesn't touch keeps its worth. Threads share
/// a subject and hand on its entries.
pub trait Subject: Drop + Send + Sync {
    /// One edit.
    type Entry: Drop + Send + Sync;

    /// How many places there are, numbered from 0.
    ghost places: { Self → ℕ };

    /// The code of the place's value after these entries.
    ghost worth: { Self → List Self.Entry → ℕ → ℕ };

    /// Whether the entry may change the place, where it comes after these entries.
    ghost touches: { Self → List Self.Entry → Self.Entry → ℕ → Type 0 };

    /// A place that an entry doesn't touch keeps its worth.
    ghost untouched: { (subject : Self) (log : List Self.Entry) (entry : Self.Entry) (place : ℕ)
        → place < places subject
        → (touches subject log entry place → ⊥)
        → worth subject (log ++ entry ∷ []) place ≡ worth subject log place };
}

/// A subject that can compute what it means. Only `Core::allows` needs one.
pub trait Judge: Subject {
    /// Whether the entry touches the place after this log.
    fn touches_now(
        &self,
        alloc: Global,
        log: &[Self::Entry],
        entry: &Self::Entry,
        place: u32,
    ) -> Result<bool, Memory>
        ensures { IfOk result (λ b. IsTrue b ↔ Self.touches self.now log.now entry.now place) };

    /// The place's worth after this log.
    fn worth_now(&self, alloc: Global, log: &[Self::Entry], place: u32) -> Result<u64, Memory>
        ensures { IfOk result (λ code. code ≡ Self.worth self.now log.now place) };

    /// Whether two entries are equal.
    fn same_now(&self, a: &Self::Entry, b: &Self::Entry) -> bool
        ensures { IsTrue result ↔ (a.now ≡ b.now) };
}
