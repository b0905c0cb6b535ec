ghost use Rattle.std.specs.Prelude.{◌≡◌, [], IfOk};
ghost use Rattle.std.specs.List.Sorted.{IsPermutation};
ghost use Rattle.taco_graph.specs.Joinable.{AreJustOne, NoneJoins};
ghost use Rattle.taco_graph.specs.Order.{AreInOrder};
ghost use Rattle.taco_graph.specs.Pairs.{HaveFewPairs, StandFor};

use crate::answers::Question;
use crate::changes::{add_filled, add_single, take_out};
use crate::neighbours::Sides;
use crate::order::sort_edges;
use crate::store::EdgeStore;
use edge_patterns::Edge;
use graph_walk::{Graph, Series};
use range_index::RangeIndex;
use sheet_refs::{Cell, MAX_REFERENCES, Memory, Range, Refs};
use std::alloc::Global;
use std::marker::Model;
use tree_index::TreeIndex;

/// The most ranges to which one cell refers.
const MAX_REFS: u32 = MAX_REFERENCES as u32;

/// The most edges that come in one change: the two parts that are left of each edge that holds the cell, and one
/// for each new range.
const MAX_EDGES: u32 = 3 * MAX_REFS;

/// A dependency graph as edges, over two indexes. Between calls no two edges can be joined.
#[derive(Drop)]
pub struct Taco<I: RangeIndex> {
    store: EdgeStore<I>,
    // For how many changes room has been made that haven't been made since.
    ready: u32,
    // Where a change notes the keys of edges that it looks at.
    held: Vec<usize>,
    sides: Sides,
}

/// The graph on which the program's commands and the edits of a sheet stand, over the index that is chosen for them.
pub type SheetGraph = Taco<TreeIndex>;

impl<I: RangeIndex> Model for Taco<I> {
    ghost use Rattle.std.specs.Prelude.{◌*◌};
    ghost use Rattle.taco_graph.specs.Stores.{edges_of};
    ghost use Rattle.taco_graph.specs.Joinable.{AreCompressed};
    ghost use Rattle.taco_graph.specs.Taco.{TacoValue};

    ghost Value = { TacoValue };

    ghost view = { λ t. record {
      edges = edges_of t.store.slots;
      spare = t.ready;
    } };

    // No two edges can be joined, and each cell has at most 255 ranges, so that a change has room for what it puts
    // back.
    ghost invariant = { λ t. AreCompressed t.store.slots 255 (t.store.room) (765 * t.ready) };
}

impl<I: RangeIndex> Taco<I> {
    ghost use Rattle.taco_graph.specs.Pairs.{pairs_of};

    /// The graph without pairs.
    pub fn new(alloc: Global) -> Taco<I>
        ensures { result.edges ≡ [] }
    {
        Taco {
            store: EdgeStore::new(alloc, true),
            ready: 0,
            held: Vec::new(alloc),
            sides: Sides::new(alloc),
        }
    }

    /// The graph without pairs that finds its edges by their runs alone, and files no rectangle until
    /// `file_rectangles`: for a graph whose edges are listed, that is asked for precedents, or whose rectangles are
    /// filed at the end. It answers the same as one that is `new`, but until then it looks at each edge where it is
    /// asked for dependents.
    pub fn by_runs(alloc: Global) -> Taco<I>
        ensures { result.edges ≡ [] }
    {
        Taco {
            store: EdgeStore::new(alloc, false),
            ready: 0,
            held: Vec::new(alloc),
            sides: Sides::new(alloc),
        }
    }

    /// All edges, each once and no pair in two of them, in order: by the head and then the tail of the run, by
    /// those of the rectangle, and by the pattern; cells stand by column and then by row. No two of the edges can be
    /// joined, whatever changes came before, and where the pairs are those of one edge, there is just that one.
    pub fn edges(&self) -> Result<Vec<Edge>, Memory>
        ensures all { IfOk result (λ edges. IsPermutation self.now.edges edges.items) }
        ensures order { IfOk result (λ edges. AreInOrder edges.items) }
        ensures few { IfOk result (λ edges. HaveFewPairs edges.items) }
        ensures stand { StandFor self.now.edges (pairs_of self.now.edges) }
        ensures joined { NoneJoins self.now.edges }
        ensures just_one { AreJustOne self.now.edges }
        ensures listed_stand { IfOk result
            (λ edges. StandFor edges.items (pairs_of self.now.edges)) }
        ensures listed_joined { IfOk result (λ edges. NoneJoins edges.items) }
    {
        let mut edges = self.store.edges()?;
        sort_edges(&mut edges)?;
        Ok(edges)
    }
}

impl<I: RangeIndex + Drop> Taco<I> {
    /// Files the rectangles of all edges at one go, by which dependents are found from then on. A graph that is made
    /// `by_runs` and then does so is made in less time than one that is `new`, most of all where references are drawn
    /// at random, and its index is the better one, since rectangles that are near one another come together. It changes
    /// no edge. What room has been made for `replace` is given up, after Memory too, where rectangles stay filed as
    /// they were. It sorts the edges' rectangles, and takes some steps for each.
    pub fn file_rectangles(&mut self) -> Result<(), Memory>
        ensures { self.new.edges ≡ self.old.edges }
    {
        self.ready = 0;
        self.store.file_rectangles()
    }
}

// Makes room for the keys of the edges that can hold one cell.
fn reserve_lists(held: &mut Vec<usize>, sides: &mut Sides) -> Result<(), Memory> {
    held.clear();
    held.reserve(MAX_REFS as usize)?;
    sides.reserve(MAX_REFS as usize)
}

impl<I: RangeIndex> Graph for Taco<I> {
    ghost use Rattle.std.specs.Prelude.{◌≤◌, OnErr, OnOk};
    ghost use Rattle.edge_patterns.specs.Queries.{IsDirect, IsReferred};
    ghost use Rattle.graph_walk.specs.Graphs.{AddsDirectDependents, AddsDirectPrecedents};
    ghost use Rattle.graph_walk.specs.Graphs.{AddsAhead, AddsBehind, Keeps, SamePairs};
    ghost use Rattle.taco_graph.specs.Answers.{AddsOneEach, ahead_of, behind_of};
    ghost use Rattle.taco_graph.specs.Pairs.{pairs_of};

    ghost pairs = { λ t. pairs_of t.edges };

    ghost spare = { λ t. t.spare };

    fn direct_dependents(&self, q: Range, out: &mut Vec<Range>) -> Result<(), Memory>
        ensures found { OnOk result
            (AddsDirectDependents (pairs_of self.now.edges) q out.old.items out.new.items) }
        ensures kept { Keeps out.old.items out.new.items }
        ensures each { OnOk result
            (AddsOneEach self.now.edges (λ edge. IsDirect edge q) out.old.items out.new.items) }
    {
        self.store.ask(Question::Dependents, q, out)
    }

    fn direct_precedents(&self, q: Range, out: &mut Vec<Range>) -> Result<(), Memory>
        ensures found { OnOk result
            (AddsDirectPrecedents (pairs_of self.now.edges) q out.old.items out.new.items) }
        ensures kept { Keeps out.old.items out.new.items }
        ensures each { OnOk result
            (AddsOneEach self.now.edges (λ edge. IsReferred edge q) out.old.items out.new.items) }
    {
        self.store.ask(Question::Precedents, q, out)
    }

    fn ahead(&self, q: Range, out: &mut Vec<Range>) -> Result<(), Memory>
        ensures found { OnOk result
            (AddsAhead (pairs_of self.now.edges) q out.old.items out.new.items) }
        ensures kept { Keeps out.old.items out.new.items }
        ensures each { OnOk result
            (AddsOneEach self.now.edges (ahead_of q) out.old.items out.new.items) }
    {
        self.store.ask(Question::Ahead, q, out)
    }

    fn behind(&self, q: Range, out: &mut Vec<Range>) -> Result<(), Memory>
        ensures found { OnOk result
            (AddsBehind (pairs_of self.now.edges) q out.old.items out.new.items) }
        ensures kept { Keeps out.old.items out.new.items }
        ensures each { OnOk result
            (AddsOneEach self.now.edges (behind_of q) out.old.items out.new.items) }
    {
        self.store.ask(Question::Behind, q, out)
    }

    fn reserve(&mut self, changes: u32) -> Result<(), Memory>
        requires { changes ≤ 1048576 }
        ensures room { OnOk result (changes ≤ self.new.spare) }
        ensures keeps_room { self.old.spare ≤ self.new.spare }
        ensures same_room { OnErr result (self.new.spare ≡ self.old.spare) }
        ensures same { SamePairs (pairs_of self.old.edges) (pairs_of self.new.edges) }
        ensures same_edges { self.new.edges ≡ self.old.edges }
    {
        self.store.reserve(changes * MAX_EDGES)?;
        reserve_lists(&mut self.held, &mut self.sides)?;
        self.ready = self.ready.max(changes);
        Ok(())
    }

    fn replace(&mut self, cell: Cell, refs: &Refs) {
        self.ready -= 1;
        take_out(&mut self.store, &mut self.held, &mut self.sides, cell);
        self.sides.turn_to(&Range::of(cell, cell));
        for range in refs.ranges() {
            add_single(&mut self.store, &mut self.sides, cell, *range);
        }
    }

    fn add_run(&mut self, run: Range, series: &[Series]) -> Result<(), Memory> {
        self.reserve(1)?;
        self.ready -= 1;
        self.sides.turn_to(&run);
        for one in series {
            add_filled(&mut self.store, &mut self.sides, run, *one);
        }
        Ok(())
    }
}
