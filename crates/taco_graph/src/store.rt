// The edges of a graph, and the two indexes of them.
ghost use Rattle.std.specs.Prelude.{◌≡◌, ◌≢◌, ◌+◌, ◌≤◌, None, Some};
ghost use Rattle.std.specs.Prelude.{IsTrue, IsFalse, IsSome, IfSome, IfOk, OnOk, AllPairs};
ghost use Rattle.taco_graph.specs.Stores.{edge_at, edges_of, AreEdges, IsApart, IsApartBeside, EdgesDiffer};
ghost use Rattle.taco_graph.specs.Stores.{PutsEdge, Gains, LeavesApart, IsMetAt, NamesMet};
ghost use Rattle.taco_graph.specs.Answers.{NamesAnswering, IsMeant, AnswersAt, AddsAnswers, AddsOneEach};
ghost use Rattle.graph_walk.specs.Graphs.{Keeps};

use crate::answers::{Question, answer};
use crate::filing::RectangleIndex;
use edge_patterns::Edge;
use range_index::{Item, RangeIndex, packing_key};
use sheet_refs::{Memory, Range};
use slab::Slab;
use std::alloc::Global;
use std::marker::Model;

/// For how many keys a query makes room at first: most queries find fewer edges, and take memory once.
const LIKELY_KEYS: usize = 32;

/// Edges under keys, each in an index with its run, and in another with the rectangle of its ranges, where rectangles
/// are kept. Where they aren't, what is asked by rectangle is asked of each edge.
#[derive(Drop)]
pub(crate) struct EdgeStore<I: RangeIndex> {
    edges: Slab<Edge>,
    runs: I,
    rectangles: RectangleIndex<I>,
    alloc: Global,
}

impl<I: RangeIndex> Model for EdgeStore<I> {
    ghost use Rattle.std.specs.Prelude.{◌-◌};
    ghost use Rattle.slab.specs.Slab.{slab_len};
    ghost use Rattle.taco_graph.specs.Stores.{StoreValue, AreStored, store_value};

    ghost Value = { StoreValue };

    ghost view = { λ s. store_value s.edges.slots
        (s.edges.capacity - slab_len s.edges) (I.spare s.runs) s.rectangles.spare };

    ghost invariant = { λ s. AreStored s.edges.slots (I.entries s.runs) s.rectangles };
}

impl<I: RangeIndex> EdgeStore<I> {
    ghost use Rattle.std.specs.Prelude.{[], length};
    ghost use Rattle.edge_patterns.specs.Edges.{IsEdge};
    ghost use Rattle.taco_graph.specs.Stores.{NamesOverlapping, AreEdgesApart};

    /// The store of no edges, which keeps rectangles or doesn't.
    pub(crate) fn new(alloc: Global, keeps_rectangles: bool) -> EdgeStore<I>
        ensures { result.slots ≡ [] }
    {
        EdgeStore {
            edges: Slab::new(alloc),
            runs: I::empty(alloc),
            rectangles: RectangleIndex::new(alloc, keeps_rectangles),
            alloc,
        }
    }

    /// Makes room for so many more edges. The edges and what room there was stay, after Memory too.
    pub(crate) fn reserve(&mut self, edges: u32) -> Result<(), Memory>
        ensures room { OnOk result (edges ≤ self.new.room) }
        ensures keeps_room { self.old.room ≤ self.new.room }
        ensures same { self.new.slots ≡ self.old.slots }
    {
        self.edges.reserve(edges as usize)?;
        self.runs.reserve(edges)?;
        self.rectangles.reserve(edges)?;
        Ok(())
    }

    /// The edge under a key.
    pub(crate) fn get(&self, key: usize) -> Option<Edge>
        ensures edge { result ≡ edge_at self.now.slots key }
        ensures is_edge { IfSome result IsEdge }
    {
        self.edges.get(key).copied()
    }

    /// Takes the edge under a key out.
    pub(crate) fn remove(&mut self, key: usize)
        requires there { IsSome (edge_at self.old.slots key) }
        ensures removed { PutsEdge self.old.slots self.new.slots key None }
        ensures apart { LeavesApart self.old.slots self.new.slots key }
        ensures room { self.old.room ≤ self.new.room }
    {
        let edge = self.edges.remove(key);
        self.runs.remove(key, edge.dep());
        self.rectangles.remove(key, edge.prec());
    }

    /// Adds an edge, which takes no memory.
    pub(crate) fn insert(&mut self, edge: Edge)
        requires apart { IsApart self.old.slots edge }
        requires room { 1 ≤ self.old.room }
        ensures gained { Gains self.old.slots self.new.slots edge }
        ensures room { self.old.room ≤ self.new.room + 1 }
    {
        let key = self.edges.insert_reserved(edge);
        self.runs.insert(key, edge.dep());
        self.rectangles.insert(key, edge.prec());
    }

    /// Puts an edge in the place of the one under a key, which takes no memory.
    pub(crate) fn change(&mut self, key: usize, edge: Edge)
        requires there { IsSome (edge_at self.old.slots key) }
        requires apart { IsApartBeside self.old.slots key edge }
        requires room { 1 ≤ self.old.room }
        ensures changed { PutsEdge self.old.slots self.new.slots key (Some edge) }
        ensures room { self.old.room ≤ self.new.room + 1 }
    {
        let Some(slot) = self.edges.get_mut(key) else {
            return;
        };
        let old = *slot;
        *slot = edge;
        self.runs.change(key, old.dep(), edge.dep());
        self.rectangles.change(key, old.prec(), edge.prec());
    }

    /// A number above every key.
    pub(crate) fn end(&self) -> usize
        ensures { length self.now.slots ≤ result }
    {
        self.edges.capacity()
    }

    /// Tells the proofs around it that what is kept are edges; it does nothing.
    pub(crate) fn check_edges(&self)
        ensures { AreEdges self.now.slots }
    {
        let _ = &self.edges;
    }

    /// Adds the keys of the edges whose runs overlap a query to a list.
    pub(crate) fn keys_by_run(&self, q: Range, keys: &mut Vec<usize>) -> Result<(), Memory>
        ensures named { OnOk result (NamesOverlapping self.now.slots q keys.new.items) }
        ensures edges { AreEdges self.now.slots }
    {
        self.runs.overlapping(q, keys)
    }

    /// All edges, by rising key. It looks at each key that there is room for.
    pub(crate) fn edges(&self) -> Result<Vec<Edge>, Memory>
        ensures all { IfOk result (λ edges. edges.items ≡ edges_of self.now.slots) }
        ensures apart { AreEdgesApart (edges_of self.now.slots) }
    {
        let mut edges = Vec::new(self.alloc);
        for key in 0..self.end() {
            if let Some(edge) = self.get(key) {
                edges.push(edge)?;
            }
        }
        Ok(edges)
    }

    // Whether there is an edge under a key whose rectangle overlaps a query.
    fn is_met(&self, key: usize, q: Range) -> bool
        ensures met { IsTrue result → IsMetAt self.now.slots q key }
        ensures missed { IsFalse result → ¬ IsMetAt self.now.slots q key }
    {
        match self.get(key) {
            Some(edge) => edge.prec().overlaps(&q),
            None => false,
        }
    }

    // The keys of the edges whose rectangles overlap a query. It looks at each key that there is room for.
    fn keys_of_all(&self, q: Range) -> Result<Vec<usize>, Memory>
        ensures named { IfOk result (λ keys. NamesMet self.now.slots q keys.items) }
        ensures once { IfOk result (λ keys. AllPairs (λ a b. a ≢ b) keys.items) }
    {
        let mut keys = Vec::new(self.alloc);
        for key in 0..self.end() {
            if self.is_met(key, q) {
                keys.push(key)?;
            }
        }
        Ok(keys)
    }

    // The same, by the index where it keeps rectangles, and then by rising key: a graph that is made of a sheet has
    // keys that rise from cell to cell, so that dependents which follow one another in a column do so among the
    // answers.
    fn keys_by_rectangle(&self, q: Range) -> Result<Vec<usize>, Memory>
        ensures named { IfOk result (λ keys. NamesMet self.now.slots q keys.items) }
        ensures once { IfOk result (λ keys. AllPairs (λ a b. a ≢ b) keys.items) }
    {
        if !self.rectangles.is_kept() {
            return self.keys_of_all(q);
        }
        let mut keys = Vec::with_capacity(self.alloc, LIKELY_KEYS)?;
        self.rectangles.overlapping(q, &mut keys)?;
        keys.sort_unstable();
        Ok(keys)
    }

    // The keys of the edges whose runs overlap a query, each once.
    fn keys_of_runs(&self, q: Range) -> Result<Vec<usize>, Memory>
        ensures named { IfOk result (λ keys. NamesOverlapping self.now.slots q keys.items) }
        ensures once { IfOk result (λ keys. AllPairs (λ a b. a ≢ b) keys.items) }
    {
        let mut keys = Vec::new(self.alloc);
        self.runs.overlapping(q, &mut keys)?;
        Ok(keys)
    }

    // The keys of the edges that have an answer, each once.
    fn keys_for(&self, question: Question, q: Range) -> Result<Vec<usize>, Memory>
        ensures named { IfOk result (λ keys. NamesAnswering self.now.slots question q keys.items) }
        ensures once { IfOk result (λ keys. AllPairs (λ a b. a ≢ b) keys.items) }
        ensures differ { OnOk result (EdgesDiffer self.now.slots) }
    {
        let _ = &self.edges;
        let keys = match question {
            Question::Dependents => self.keys_by_rectangle(q)?,
            Question::Precedents => self.keys_of_runs(q)?,
            Question::Ahead => self.keys_by_rectangle(q)?,
            Question::Behind => self.keys_of_runs(q)?,
        };
        Ok(keys)
    }

    // What the edge under a key answers, if there is one.
    fn answer_at(&self, question: Question, q: Range, key: usize) -> Option<Range>
        ensures { AnswersAt self.now.slots question q key result }
    {
        let Some(edge) = self.get(key) else {
            return None;
        };
        answer(question, &edge, q)
    }

    /// Adds what the edges answer to a list: at most one range for each. It looks at the edges that an index names, and
    /// where no rectangles are kept, for dependents at each key that there is room for.
    pub(crate) fn ask(
        &self,
        question: Question,
        q: Range,
        out: &mut Vec<Range>,
    ) -> Result<(), Memory>
        ensures found { OnOk result
            (AddsAnswers self.now.slots question q out.old.items out.new.items) }
        ensures each { OnOk result (AddsOneEach (edges_of self.now.slots)
            (λ edge. IsMeant question edge q) out.old.items out.new.items) }
        ensures kept { Keeps out.old.items out.new.items }
    {
        let keys = self.keys_for(question, q)?;
        for key in &keys {
            if let Some(range) = self.answer_at(question, q, *key) {
                out.push(range)?;
            }
        }
        Ok(())
    }
}

// By what an edge's rectangle is put in order.
fn packing_key_of(item: &Item) -> (u32, u32, u32, u32) {
    packing_key(item.range)
}

impl<I: RangeIndex> EdgeStore<I> {
    ghost use Rattle.edge_patterns.specs.Edges.{EdgeValue};
    ghost use Rattle.range_index.specs.Entries.{HaveOneRange};
    ghost use Rattle.taco_graph.specs.Stores.{FilesAll};

    // The keys of the edges with their rectangles, by rising key. It looks at each key that there is room for.
    fn rectangles_by_key(&self) -> Result<Vec<Item>, Memory>
        ensures all { IfOk result
            (λ items. FilesAll self.now.slots (λ (edge : EdgeValue). edge.prec) items.items) }
        ensures once { IfOk result (λ items. HaveOneRange items.items) }
    {
        let mut items = Vec::with_capacity(self.alloc, self.edges.len())?;
        for key in 0..self.end() {
            if let Some(edge) = self.get(key) {
                let range = edge.prec();
                items.push(Item { id: key, range })?;
            }
        }
        Ok(items)
    }

    // The same, in the order in which an index packs them.
    fn packed_rectangles(&self) -> Result<Vec<Item>, Memory>
        ensures all { IfOk result
            (λ items. FilesAll self.now.slots (λ (edge : EdgeValue). edge.prec) items.items) }
        ensures once { IfOk result (λ items. HaveOneRange items.items) }
    {
        let mut items = self.rectangles_by_key()?;
        items.sort_unstable_by_key(packing_key_of);
        Ok(items)
    }
}

impl<I: RangeIndex + Drop> EdgeStore<I> {
    /// Files the rectangles of all edges anew, packed, and keeps rectangles from then on. After Memory all is as it
    /// was. It sorts them, and takes some steps for each.
    pub(crate) fn file_rectangles(&mut self) -> Result<(), Memory>
        ensures { self.new.slots ≡ self.old.slots }
    {
        let items = self.packed_rectangles()?;
        self.rectangles = RectangleIndex::of(self.alloc, &items)?;
        Ok(())
    }
}
