// The sides of a run, and which edges there can be joined with it.
ghost use Rattle.std.specs.Prelude.{◌≡◌, ◌≤◌, Some, true, ℕ, List, Option, Contains, OnOk};
ghost use Rattle.sheet_refs.specs.Cells.{Position, IsNamed};
ghost use Rattle.edge_patterns.specs.Edges.{EdgeValue};
ghost use Rattle.taco_graph.specs.Changes.{FindsJoined};
ghost use Rattle.taco_graph.specs.Joinable.{CantJoinAny, CantJoinBeyond};
ghost use Rattle.taco_graph.specs.Sides.{CantJoinBeside, NameBeside, AreRound, StandAsBefore};
ghost use Rattle.taco_graph.specs.Sides.{HaveKey, IsOneOf, KeepKeys, WereAskedWithin, cell_after, cell_before};

use crate::side::Side;
use crate::store::EdgeStore;
use edge_patterns::Edge;
use range_index::RangeIndex;
use sheet_refs::{Cell, MAX_COLS, MAX_ROWS, Memory, Range};
use std::alloc::Global;

/// How many cells a cell is with those beside it and at its corners.
const CELLS_AROUND: usize = 9;

/// The sides of a run.
#[derive(Drop)]
pub(crate) struct Sides {
    // The keys of the edges around a run of one cell, from which the sides get theirs. It is kept for its memory.
    around: Vec<usize>,
    above: Side,
    below: Side,
    left: Side,
    right: Side,
}

// A cell beside a run, if the run has a side there.
fn beside(has_side: bool, row: u32, col: u32) -> Option<Cell>
    ensures { has_side ≡ true → IsNamed row col → result ≡ Some (record { row = row; col = col }) }
{
    if !has_side {
        return None;
    }
    Cell::new(row, col)
}

// A cell with the cells beside it and at its corners.
fn around(cell: Cell) -> Range {
    let (row, col) = (cell.row(), cell.col());
    let head = Cell::new((row - 1).max(1), (col - 1).max(1)).unwrap();
    let tail = Cell::new((row + 1).min(MAX_ROWS), (col + 1).min(MAX_COLS)).unwrap();
    Range::of(head, tail)
}

// The first of two that were found, or the second; where just one was found, that one.
fn either(
    first: &Option<(usize, Edge)>,
    second: &Option<(usize, Edge)>,
    takes_second: bool,
) -> Option<(usize, Edge)>
    ensures { IsOneOf first.now second.now result }
{
    if takes_second && second.is_some() || first.is_none() {
        *second
    } else {
        *first
    }
}

// How many cells an edge has that was found.
fn cells_of(found: &Option<(usize, Edge)>) -> u64
    ensures { result ≤ 17179869184 }
{
    match found {
        Some((_, edge)) => edge.dep().cells(),
        None => 0,
    }
}

impl Sides {
    ghost use Rattle.std.specs.Prelude.{◌<◌, length, slice_index_or};

    pub(crate) fn new(alloc: Global) -> Sides {
        Sides {
            around: Vec::new(alloc),
            above: Side::new(alloc),
            below: Side::new(alloc),
            left: Side::new(alloc),
            right: Side::new(alloc),
        }
    }

    /// Makes room for the keys of so many edges a cell: those at each side, and those around a cell.
    pub(crate) fn reserve(&mut self, keys: usize) -> Result<(), Memory> {
        self.around.clear();
        self.around.reserve(keys.saturating_mul(CELLS_AROUND))?;
        self.above.reserve(keys)?;
        self.below.reserve(keys)?;
        self.left.reserve(keys)?;
        self.right.reserve(keys)?;
        Ok(())
    }

    /// Turns to the sides of a run: above and below it where it stands in one column, left and right of it where it
    /// stands in one row.
    pub(crate) fn turn_to(&mut self, run: &Range)
        ensures round { AreRound run.now self.new }
        ensures names { (slots : List (Option EdgeValue)) (cell : Position) →
            NameBeside slots cell self.new }
    {
        let (head, tail) = (run.head(), run.tail());
        let in_column = head.col() == tail.col();
        let in_row = head.row() == tail.row();
        self.above
            .turn_to(beside(in_column, head.row() - 1, head.col()));
        self.below
            .turn_to(beside(in_column, tail.row() + 1, head.col()));
        self.left
            .turn_to(beside(in_row, head.row(), head.col() - 1));
        self.right
            .turn_to(beside(in_row, head.row(), tail.col() + 1));
    }

    // Whether a side has been asked.
    fn is_asked(&self) -> bool {
        self.above.is_asked()
            || self.below.is_asked()
            || self.left.is_asked()
            || self.right.is_asked()
    }

    // Forgets the keys of all sides.
    fn forget(&mut self)
        ensures names { (slots : List (Option EdgeValue)) (cell : Position) →
            NameBeside slots cell self.new }
        ensures same { StandAsBefore self.old self.new }
    {
        self.above.forget();
        self.below.forget();
        self.left.forget();
        self.right.forget();
    }

    // Gives a key to each side whose cell is in the run of its edge.
    fn give_key<I: RangeIndex>(&mut self, store: &EdgeStore<I>, key: usize) -> Result<(), Memory>
        ensures all { OnOk result (HaveKey store.now.slots key self.new) }
        ensures kept { KeepKeys self.old self.new }
        ensures around { self.new.around ≡ self.old.around }
    {
        let Some(edge) = store.get(key) else {
            return Ok(());
        };
        let run = edge.dep();
        self.above.take_in(key, &run)?;
        self.below.take_in(key, &run)?;
        self.left.take_in(key, &run)?;
        self.right.take_in(key, &run)
    }

    // The key at a place of the list of those around a cell.
    fn key_around(&self, place: usize) -> usize
        requires { place < length self.now.around.items }
        ensures { result ≡ slice_index_or self.now.around.items place 0 }
    {
        self.around[place]
    }

    // Gives each key around a cell to the sides.
    fn give_keys<I: RangeIndex>(&mut self, store: &EdgeStore<I>) -> Result<(), Memory>
        ensures all { OnOk result ((key : ℕ) → Contains self.old.around.items key →
            HaveKey store.now.slots key self.new) }
        ensures kept { KeepKeys self.old self.new }
    {
        for place in 0..self.around.len() {
            let key = self.key_around(place);
            self.give_key(store, key)?;
        }
        Ok(())
    }

    // Notes that no key is missing at the sides whose cells are in a rectangle.
    fn note_asked(&mut self, q: &Range)
        ensures kept { KeepKeys self.old self.new }
        ensures within { WereAskedWithin self.new q.now }
    {
        self.above.note_asked(q);
        self.below.note_asked(q);
        self.left.note_asked(q);
        self.right.note_asked(q);
    }

    // Asks for the keys of all sides whose cells are in a rectangle, by one query. After Memory each side has to be
    // asked anew.
    fn ask_within<I: RangeIndex>(&mut self, store: &EdgeStore<I>, q: Range) -> Result<(), Memory>
        ensures names { OnOk result ((cell : Position) →
            NameBeside store.now.slots cell self.new) }
        ensures same { StandAsBefore self.old self.new }
    {
        self.forget();
        self.around.clear();
        store.keys_by_run(q, &mut self.around)?;
        self.give_keys(store)?;
        self.note_asked(&q);
        Ok(())
    }

    // Asks for the keys at all sides of a single cell at once, where no side has been asked: four queries would go down
    // the index to the same nodes. Around several cells a rectangle would hold too many edges. Where the query wants
    // memory, each side is asked by itself when it is needed.
    fn ask_around<I: RangeIndex>(&mut self, store: &EdgeStore<I>, run: Range)
        ensures names { (cell : Position) → NameBeside store.now.slots cell self.old →
            NameBeside store.now.slots cell self.new }
        ensures same { StandAsBefore self.old self.new }
    {
        if run.head() != run.tail() || self.is_asked() {
            return;
        }
        match self.ask_within(store, around(run.head())) {
            Ok(()) => (),
            Err(_) => self.forget(),
        }
    }

    /// An edge at one of the sides that can be joined with an edge and doesn't hold the cell.
    pub(crate) fn find<I: RangeIndex>(
        &mut self,
        store: &EdgeStore<I>,
        edge: &Edge,
        cell: Cell,
    ) -> Option<(usize, Edge)>
        requires names { NameBeside store.now.slots cell self.old }
        requires round { AreRound edge.now.dep self.old }
        ensures found { FindsJoined store.now.slots edge.now cell result
            (CantJoinAny store.now.slots edge.now cell) }
        ensures names { NameBeside store.now.slots cell self.new }
        ensures same { StandAsBefore self.old self.new }
    {
        self.ask_around(store, edge.dep());
        self.find_longest(store, edge, cell)
    }

    // The same, in the direction in which more cells stand at the sides, and there at the side before the edge. So a
    // cell that goes on with a long row isn't joined with a cell above it, to which it stands in the same way.
    fn find_longest<I: RangeIndex>(
        &mut self,
        store: &EdgeStore<I>,
        edge: &Edge,
        cell: Cell,
    ) -> Option<(usize, Edge)>
        requires names { NameBeside store.now.slots cell self.old }
        requires round { AreRound edge.now.dep self.old }
        ensures found { FindsJoined store.now.slots edge.now cell result
            (CantJoinAny store.now.slots edge.now cell) }
        ensures names { NameBeside store.now.slots cell self.new }
        ensures same { StandAsBefore self.old self.new }
    {
        store.check_edges();
        let above = self.above.find(store, edge, cell);
        let below = self.below.find(store, edge, cell);
        let left = self.left.find(store, edge, cell);
        let right = self.right.find(store, edge, cell);
        let down = either(&above, &below, false);
        let across = either(&left, &right, false);
        let is_longer = cells_of(&above) + cells_of(&below) < cells_of(&left) + cells_of(&right);
        either(&down, &across, is_longer)
    }

    /// An edge that can be joined with what an edge has grown into, at the end at which it hasn't grown: what could be
    /// joined with the whole at the other end could have been joined with the part that was there.
    pub(crate) fn find_beyond<I: RangeIndex>(
        &mut self,
        store: &EdgeStore<I>,
        edge: &Edge,
        grown: &Edge,
        cell: Cell,
    ) -> Option<(usize, Edge)>
        requires names { NameBeside store.now.slots cell self.old }
        requires round { AreRound edge.now.dep self.old }
        ensures found { FindsJoined store.now.slots grown.now cell result
            (CantJoinBeyond store.now.slots edge.now grown.now cell) }
        ensures names { NameBeside store.now.slots cell self.new }
        ensures same { StandAsBefore self.old self.new }
    {
        store.check_edges();
        let run = grown.dep();
        let in_column = run.head().col() == run.tail().col();
        if run.tail() == edge.dep().tail() {
            self.find_after(in_column, store, grown, cell)
        } else {
            self.find_before(in_column, store, grown, cell)
        }
    }

    // At the side behind a run.
    fn find_after<I: RangeIndex>(
        &mut self,
        in_column: bool,
        store: &EdgeStore<I>,
        edge: &Edge,
        cell: Cell,
    ) -> Option<(usize, Edge)>
        requires { NameBeside store.now.slots cell self.old }
        ensures found { FindsJoined store.now.slots edge.now cell result
            (CantJoinBeside store.now.slots (cell_after self.old in_column) edge.now cell) }
        ensures names { NameBeside store.now.slots cell self.new }
        ensures same { StandAsBefore self.old self.new }
    {
        if in_column {
            self.below.find(store, edge, cell)
        } else {
            self.right.find(store, edge, cell)
        }
    }

    // At the side before a run.
    fn find_before<I: RangeIndex>(
        &mut self,
        in_column: bool,
        store: &EdgeStore<I>,
        edge: &Edge,
        cell: Cell,
    ) -> Option<(usize, Edge)>
        requires { NameBeside store.now.slots cell self.old }
        ensures found { FindsJoined store.now.slots edge.now cell result
            (CantJoinBeside store.now.slots (cell_before self.old in_column) edge.now cell) }
        ensures names { NameBeside store.now.slots cell self.new }
        ensures same { StandAsBefore self.old self.new }
    {
        if in_column {
            self.above.find(store, edge, cell)
        } else {
            self.left.find(store, edge, cell)
        }
    }
}
