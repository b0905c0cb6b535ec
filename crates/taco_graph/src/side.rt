// A side of a run, and which of the edges there can be joined with an edge.
ghost use Rattle.std.specs.Prelude.{◌≡◌, Some, true, List, Option, Contains, MatchOption, OnOk};
ghost use Rattle.sheet_refs.specs.Cells.{Position};
ghost use Rattle.edge_patterns.specs.Edges.{EdgeValue};
ghost use Rattle.taco_graph.specs.Changes.{FindsJoined, FindsPlace, IsJoinedAt};
ghost use Rattle.taco_graph.specs.Joinable.{CantJoinAt, CantJoinAny};
ghost use Rattle.taco_graph.specs.Sides.{CantJoinBetween, CantJoinListed, CantJoinBeside};
ghost use Rattle.taco_graph.specs.Sides.{NamesBeside, HasBeside, KeepsKeys, WasAskedWithin};

use crate::near::lie_near;
use crate::store::EdgeStore;
use edge_patterns::{Edge, join};
use range_index::RangeIndex;
use sheet_refs::{Cell, Memory, Range};
use std::alloc::Global;

// The edge with the pairs of an edge and of the one under a key, if there is one and the other doesn't hold the cell.
fn joined_at<I: RangeIndex>(
    store: &EdgeStore<I>,
    key: usize,
    edge: &Edge,
    cell: Cell,
) -> Option<Edge>
    ensures { MatchOption result (CantJoinAt store.now.slots key edge.now cell)
        (IsJoinedAt store.now.slots key edge.now cell) }
{
    let Some(other) = store.get(key) else {
        return None;
    };
    // Cells side by side mostly refer to cells far from one another, which is found at a look.
    if !lie_near(edge, &other) {
        return None;
    }
    if other.dep().contains(cell) {
        return None;
    }
    join(edge, &other)
}

// The first of some places of a list at which the key of an edge stands that can be joined with an edge and doesn't
// hold the cell, with that key and the edge that has the pairs of both; None where there is none.
fn joined_between<I: RangeIndex>(
    store: &EdgeStore<I>,
    keys: &[usize],
    from: usize,
    end: usize,
    edge: &Edge,
    cell: Cell,
) -> Option<(usize, usize, Edge)>
    ensures { FindsPlace store.now.slots edge.now cell result
        (CantJoinBetween store.now.slots keys.now from end edge.now cell) }
{
    for place in from..end {
        let Some(key) = keys.get(place) else {
            return None;
        };
        if let Some(joined) = joined_at(store, *key, edge, cell) {
            return Some((place, *key, joined));
        }
    }
    None
}

// The first of all keys whose edge can be joined with an edge and doesn't hold the cell. It looks at each key that
// there is room for.
fn joined_of_all<I: RangeIndex>(
    store: &EdgeStore<I>,
    edge: &Edge,
    cell: Cell,
) -> Option<(usize, Edge)>
    ensures { FindsJoined store.now.slots edge.now cell result
        (CantJoinAny store.now.slots edge.now cell) }
{
    for key in 0..store.end() {
        if let Some(joined) = joined_at(store, key, edge, cell) {
            return Some((key, joined));
        }
    }
    None
}

/// The keys of the edges that hold a cell beside a run, asked for when they are first needed, alone or with those of
/// other sides. They may be stale, since each edge is looked at anew.
#[derive(Drop)]
pub(crate) struct Side {
    // The cell beside the run, if there is one.
    beside: Option<Cell>,
    keys: Vec<usize>,
    // Whether the keys have been asked for, and whether these are all: the answer may have wanted memory.
    asked: bool,
    whole: bool,
    // The place of the key that was found last. The ranges of like cells come in one order, and so do the keys of the
    // edges that they join, where the keys stand by size: a slab gives edges that come one after another rising keys.
    next: usize,
}

impl Side {
    pub(crate) fn new(alloc: Global) -> Side {
        Side {
            beside: None,
            keys: Vec::new(alloc),
            asked: false,
            whole: false,
            next: 0,
        }
    }

    /// Makes room for so many keys.
    pub(crate) fn reserve(&mut self, keys: usize) -> Result<(), Memory> {
        self.keys.clear();
        self.asked = false;
        self.keys.reserve(keys)?;
        Ok(())
    }

    /// Turns to the side of a run that has this cell.
    pub(crate) fn turn_to(&mut self, beside: Option<Cell>)
        ensures beside { self.new.beside ≡ beside }
        ensures names { (slots : List (Option EdgeValue)) (cell : Position) →
            NamesBeside slots cell self.new }
    {
        self.beside = beside;
        self.asked = false;
    }

    /// Whether the keys have been asked for.
    pub(crate) fn is_asked(&self) -> bool {
        self.asked
    }

    /// Forgets the keys, so that they have to be asked for.
    pub(crate) fn forget(&mut self)
        ensures beside { self.new.beside ≡ self.old.beside }
        ensures names { (slots : List (Option EdgeValue)) (cell : Position) →
            NamesBeside slots cell self.new }
    {
        self.keys.clear();
        self.asked = false;
    }

    /// Takes in the key of an edge with this run, where the run has the cell at this side.
    pub(crate) fn take_in(&mut self, key: usize, run: &Range) -> Result<(), Memory>
        ensures has { OnOk result
            (HasBeside self.old.beside run.now → Contains self.new.keys.items key) }
        ensures kept { KeepsKeys self.old self.new }
    {
        let Some(beside) = self.beside else {
            return Ok(());
        };
        if !run.contains(beside) {
            return Ok(());
        }
        self.keys.push(key)?;
        Ok(())
    }

    /// Notes that no key is missing, where the keys of all edges whose runs overlap a rectangle were there to be taken
    /// in. A side whose cell isn't in the rectangle is still to be asked.
    pub(crate) fn note_asked(&mut self, q: &Range)
        ensures kept { KeepsKeys self.old self.new }
        ensures within { WasAskedWithin self.new q.now }
    {
        self.asked = match self.beside {
            Some(beside) => q.contains(beside),
            None => false,
        };
        self.whole = true;
        self.next = 0;
        self.keys.sort_unstable();
    }

    // Asks for the keys, where they haven't been asked for.
    fn ask<I: RangeIndex>(&mut self, store: &EdgeStore<I>, beside: Cell)
        requires { self.old.beside ≡ Some beside }
        ensures asked { self.new.asked ≡ true }
        ensures beside { self.new.beside ≡ self.old.beside }
        ensures names { (cell : Position) → NamesBeside store.now.slots cell self.old →
            NamesBeside store.now.slots cell self.new }
    {
        if self.asked {
            return;
        }
        self.keys.clear();
        self.asked = true;
        self.next = 0;
        self.whole = match store.keys_by_run(Range::of(beside, beside), &mut self.keys) {
            Ok(()) => true,
            Err(_) => false,
        };
        self.keys.sort_unstable();
    }

    // Among the keys that were listed, from the one that was found last on.
    fn find_listed<I: RangeIndex>(
        &self,
        store: &EdgeStore<I>,
        edge: &Edge,
        cell: Cell,
    ) -> Option<(usize, usize, Edge)>
        ensures { FindsPlace store.now.slots edge.now cell result
            (CantJoinListed store.now.slots self.now.keys.items edge.now cell) }
    {
        let onward = joined_between(store, &self.keys, self.next, self.keys.len(), edge, cell);
        if onward.is_some() {
            return onward;
        }
        joined_between(store, &self.keys, 0, self.next, edge, cell)
    }

    // The same, and notes where it was found.
    fn find_next<I: RangeIndex>(
        &mut self,
        store: &EdgeStore<I>,
        edge: &Edge,
        cell: Cell,
    ) -> Option<(usize, Edge)>
        ensures found { FindsJoined store.now.slots edge.now cell result
            (CantJoinListed store.now.slots self.old.keys.items edge.now cell) }
        ensures beside { self.new.beside ≡ self.old.beside }
        ensures names { NamesBeside store.now.slots cell self.old →
            NamesBeside store.now.slots cell self.new }
    {
        let Some((place, key, joined)) = self.find_listed(store, edge, cell) else {
            return None;
        };
        self.next = place;
        Some((key, joined))
    }

    /// An edge at this side that can be joined with an edge and doesn't hold the cell. Where the index wants memory for
    /// the keys, it looks at all edges.
    pub(crate) fn find<I: RangeIndex>(
        &mut self,
        store: &EdgeStore<I>,
        edge: &Edge,
        cell: Cell,
    ) -> Option<(usize, Edge)>
        requires { NamesBeside store.now.slots cell self.old }
        ensures found { FindsJoined store.now.slots edge.now cell result
            (CantJoinBeside store.now.slots self.old.beside edge.now cell) }
        ensures beside { self.new.beside ≡ self.old.beside }
        ensures names { NamesBeside store.now.slots cell self.new }
    {
        let Some(beside) = self.beside else {
            return None;
        };
        self.ask(store, beside);
        if !self.whole {
            return joined_of_all(store, edge, cell);
        }
        self.find_next(store, edge, cell)
    }
}
