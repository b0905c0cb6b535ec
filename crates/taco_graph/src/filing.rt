// The rectangles of edges, where a graph keeps them.
ghost use Rattle.std.specs.Prelude.{◌≡◌, ◌+◌, ◌≤◌, [], Contains, IsTrue, IfOk, OnOk};
ghost use Rattle.range_index.specs.Entries.{entry_of, HasNoId, SameEntries, AddsOverlapping};
ghost use Rattle.range_index.specs.Entries.{Inserts, Removes, ChangesRange, HaveOneRange};

use range_index::{InsertOrder, Item, RangeIndex};
use sheet_refs::{Memory, Range};
use std::alloc::Global;
use std::marker::Model;

/// An index of the rectangles of edges, or none: then inserts, removals and changes do nothing. Room is made in either
/// case, so that `insert` asks for it always.
#[derive(Drop)]
pub(crate) struct RectangleIndex<I: RangeIndex> {
    index: I,
    kept: bool,
}

impl<I: RangeIndex> Model for RectangleIndex<I> {
    ghost use Rattle.taco_graph.specs.Filing.{Rectangles};

    ghost Value = { Rectangles };

    ghost view = { λ r. record {
      kept = r.kept;
      entries = I.entries r.index;
      spare = I.spare r.index;
    } };
}

/// For how many entries room is made at one go where an index is filled, which a number of 32 bits has to say. Room for
/// what is beyond is made one by one.
const MOST_AHEAD: usize = 1_048_576;

// An index with some entries, best in the order of `packing_key`: then it packs them.
fn index_of<I: RangeIndex + Drop>(alloc: Global, items: &[Item]) -> Result<I, Memory>
    requires { HaveOneRange items.now }
    ensures { IfOk result (λ index. SameEntries items.now (I.entries index)) }
{
    let mut index = I::empty(alloc);
    index.reserve(items.len().min(MOST_AHEAD) as u32)?;
    index.set_insert_order(InsertOrder::ByPlace);
    for item in items {
        index.reserve(1)?;
        index.insert(item.id, item.range);
    }
    index.set_insert_order(InsertOrder::Any);
    Ok(index)
}

impl<I: RangeIndex + Drop> RectangleIndex<I> {
    /// The index that keeps what comes, with some entries, best in the order of `packing_key`.
    pub(crate) fn of(alloc: Global, items: &[Item]) -> Result<RectangleIndex<I>, Memory>
        requires { HaveOneRange items.now }
        ensures entries { IfOk result (λ filed. SameEntries items.now filed.entries) }
        ensures kept { IfOk result (λ filed. IsTrue filed.kept) }
    {
        let index = index_of(alloc, items)?;
        Ok(RectangleIndex { index, kept: true })
    }
}

impl<I: RangeIndex> RectangleIndex<I> {
    /// The index without entries, which keeps what comes, or doesn't.
    pub(crate) fn new(alloc: Global, kept: bool) -> RectangleIndex<I>
        ensures kept { result.kept ≡ kept }
        ensures entries { result.entries ≡ [] }
    {
        RectangleIndex {
            index: I::empty(alloc),
            kept,
        }
    }

    /// Whether rectangles are kept.
    pub(crate) fn is_kept(&self) -> bool
        ensures { result ≡ self.now.kept }
    {
        self.kept
    }

    /// Makes room for so many more.
    pub(crate) fn reserve(&mut self, edges: u32) -> Result<(), Memory>
        ensures kept { self.new.kept ≡ self.old.kept }
        ensures room { OnOk result (edges ≤ self.new.spare) }
        ensures keeps_room { self.old.spare ≤ self.new.spare }
        ensures same { SameEntries self.old.entries self.new.entries }
    {
        self.index.reserve(edges)
    }

    /// Adds an id with its rectangle.
    pub(crate) fn insert(&mut self, id: usize, range: Range)
        requires absent { IsTrue self.old.kept → HasNoId self.old.entries id }
        requires room { 1 ≤ self.old.spare }
        ensures kept { self.new.kept ≡ self.old.kept }
        ensures inserted { IsTrue self.old.kept
            → Inserts self.old.entries self.new.entries id range }
        ensures room { self.old.spare ≤ self.new.spare + 1 }
    {
        if self.kept {
            self.index.insert(id, range);
        }
    }

    /// Takes an id out, which has this rectangle.
    pub(crate) fn remove(&mut self, id: usize, range: Range)
        requires { IsTrue self.old.kept → Contains self.old.entries (entry_of id range) }
        ensures kept { self.new.kept ≡ self.old.kept }
        ensures removed { IsTrue self.old.kept → Removes self.old.entries self.new.entries id }
        ensures room { self.old.spare ≤ self.new.spare }
    {
        if self.kept {
            self.index.remove(id, range);
        }
    }

    /// Gives an id, which has the rectangle `from`, the rectangle `to`.
    pub(crate) fn change(&mut self, id: usize, from: Range, to: Range)
        requires there { IsTrue self.old.kept → Contains self.old.entries (entry_of id from) }
        requires room { 1 ≤ self.old.spare }
        ensures kept { self.new.kept ≡ self.old.kept }
        ensures changed { IsTrue self.old.kept
            → ChangesRange self.old.entries self.new.entries id to }
        ensures room { self.old.spare ≤ self.new.spare + 1 }
    {
        if self.kept {
            self.index.change(id, from, to);
        }
    }

    /// Adds the ids whose rectangles overlap a query to a list.
    pub(crate) fn overlapping(&self, q: Range, out: &mut Vec<usize>) -> Result<(), Memory>
        ensures { OnOk result (AddsOverlapping self.now.entries q out.old.items out.new.items) }
    {
        self.index.overlapping(q, out)
    }
}
