ghost use Rattle.std.specs.Prelude.{◌≡◌, ◌+◌, ◌≤◌, ℕ, List, [], Contains, OnOk};
ghost use Rattle.range_index.specs.Entries.{Entry, entry_of, HaveOneRange, HasNoId, SameEntries};
ghost use Rattle.range_index.specs.Entries.{Inserts, Removes, ChangesRange, AddsOverlapping, KeepsIds};

use sheet_refs::{Memory, Range};
use std::alloc::Global;

/// In which order inserts come. Nothing that an index answers rests on it.
#[derive(Clone, Copy, Drop)]
pub enum InsertOrder {
    /// In no order that is known.
    Any,
    /// Those that come one after another lie near one another and are about as large, as where they are sorted by
    /// `packing_key`.
    ByPlace,
}

/// Ids, each with one range, and which of them overlap a query.
pub trait RangeIndex {
    /// The entries, as a list in which the order means nothing.
    ghost entries: { Self → List Entry };

    /// How many calls of `insert` there is room for.
    ghost spare: { Self → ℕ };

    /// The index without entries.
    fn empty(alloc: Global) -> Self
        ensures { entries result ≡ [] };

    /// Makes room for so many inserts. The entries and what room there was stay, after Memory too.
    fn reserve(&mut self, inserts: u32) -> Result<(), Memory>
        ensures room { OnOk result (inserts ≤ spare self.new) }
        ensures keeps_room { spare self.old ≤ spare self.new }
        ensures same { SameEntries (entries self.old) (entries self.new) };

    /// Says in which order the inserts to come are. It changes no entry, and takes no memory.
    fn set_insert_order(&mut self, order: InsertOrder)
        ensures same { SameEntries (entries self.old) (entries self.new) }
        ensures room { spare self.old ≤ spare self.new };

    /// Adds an id with its range. It takes no memory.
    fn insert(&mut self, id: usize, range: Range)
        requires absent { HasNoId (entries self.old) id }
        requires room { 1 ≤ spare self.old }
        ensures inserted { Inserts (entries self.old) (entries self.new) id range }
        ensures room { spare self.old ≤ spare self.new + 1 };

    /// Takes an id out, which has this range. It takes no memory, and gives back none.
    fn remove(&mut self, id: usize, range: Range)
        requires there { Contains (entries self.old) (entry_of id range) }
        ensures removed { Removes (entries self.old) (entries self.new) id }
        ensures room { spare self.old ≤ spare self.new };

    /// Gives an id, which has the range `from`, the range `to`. It takes no memory.
    fn change(&mut self, id: usize, from: Range, to: Range)
        requires there { Contains (entries self.old) (entry_of id from) }
        requires room { 1 ≤ spare self.old }
        ensures changed { ChangesRange (entries self.old) (entries self.new) id to }
        ensures room { spare self.old ≤ spare self.new + 1 };

    /// Adds exactly the ids whose ranges overlap a query to a list, each once. After Memory the list begins
    /// with what it held.
    fn overlapping(&self, q: Range, out: &mut Vec<usize>) -> Result<(), Memory>
        ensures found { OnOk result
            (AddsOverlapping (entries self.now) q out.old.items out.new.items) }
        ensures kept { KeepsIds out.old.items out.new.items }
        ensures one_range { HaveOneRange (entries self.now) };
}
