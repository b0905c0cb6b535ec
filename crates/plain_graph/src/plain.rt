ghost use Rattle.std.specs.Prelude.{◌≡◌, ◌+◌, ◌-◌, ◌≤◌, ◌↔◌, ◌⊎◌, [], IsTrue};
ghost use Rattle.std.specs.Prelude.{vec_len, vec_capacity};
ghost use Rattle.sheet_refs.specs.Cells.{height};
ghost use Rattle.graph_walk.specs.Series.{GoOn, steps_of, end_at, range_in};
ghost use Rattle.plain_graph.specs.Plain.{DropsPairs, AddsSeries};

use graph_walk::{Graph, Series};
use sheet_refs::{Cell, MAX_REFERENCES, Memory, Range, Refs};
use std::alloc::Global;
use std::marker::Model;

/// A cell that refers to a range.
#[derive(Clone, Copy)]
struct Dependency {
    range: Range,
    cell: Cell,
}

impl Model for Dependency {
    ghost use Rattle.graph_walk.specs.Graphs.{Pair};

    ghost Value = { Pair };

    ghost view = { λ d. record { range = d.range; cell = d.cell } };

    ghost inverse = { λ p. record { range = p.range; cell = p.cell } };
}

// Whether the pair is one of the cell's.
fn is_of(pair: &Dependency, cell: Cell) -> bool
    ensures { IsTrue result ↔ (pair.now.cell ≡ cell) }
{
    pair.cell.row() == cell.row() && pair.cell.col() == cell.col()
}

// Takes out the pairs of a cell, each in place of which the last one goes. It takes no memory.
fn drop_pairs(pairs: &mut Vec<Dependency>, cell: Cell)
    ensures kept { DropsPairs pairs.old.items pairs.new.items cell }
    ensures len { vec_len pairs.new ≤ vec_len pairs.old }
    ensures capacity { vec_capacity pairs.new ≡ vec_capacity pairs.old }
{
    let mut place = 0;
    while place < pairs.len() {
        if is_of(&pairs[place], cell) {
            pairs.swap_remove(place);
        } else {
            place += 1;
        }
    }
}

// An end of the range of the cell with this index, by that of the first cell and that of the last.
fn end_at(first: Cell, last: Cell, index: u32) -> Cell
    requires reached { (last.row ≡ first.row) ⊎ (first.row + index ≤ last.row) }
    ensures { result ≡ end_at first last index }
{
    if first.row() == last.row() {
        return first;
    }
    Cell::new(first.row() + index, first.col()).unwrap()
}

// The range of the cell of a run with this index, counted from 0.
fn range_in(series: &Series, run: Range, index: u32) -> Range
    requires ends { GoOn (steps_of run) series.now }
    requires inside { index ≤ steps_of run }
    ensures { result ≡ range_in series.now index }
{
    let head = end_at(series.first.head(), series.last.head(), index);
    let tail = end_at(series.first.tail(), series.last.tail(), index);
    Range::of(head, tail)
}

// Adds the pairs of the cells of a run with their ranges of a series, for which there is room. It takes no memory.
fn add_series(pairs: &mut Vec<Dependency>, run: Range, series: &Series)
    requires line { run.tail.col ≡ run.head.col }
    requires ends { GoOn (steps_of run) series.now }
    requires room { vec_len pairs.old + height run ≤ vec_capacity pairs.old }
    ensures added { AddsSeries pairs.old.items pairs.new.items run series.now }
    ensures len { vec_len pairs.new ≡ vec_len pairs.old + height run }
    ensures capacity { vec_capacity pairs.old ≤ vec_capacity pairs.new }
{
    let first = run.head();
    for index in 0..run.tail().row() - first.row() + 1 {
        let range = range_in(series, run, index);
        let cell = Cell::new(first.row() + index, first.col()).unwrap();
        // There is room, so that this takes no memory and can't fail.
        let _ = pairs.push(Dependency { range, cell });
    }
}

/// A dependency graph as a list of pairs.
#[derive(Drop)]
pub struct PlainGraph {
    pairs: Vec<Dependency>,
}

impl Model for PlainGraph {
    ghost use Rattle.std.specs.Prelude.{◌-◌, ◌/◌, vec_len, vec_capacity};
    ghost use Rattle.plain_graph.specs.Plain.{PlainValue};

    ghost Value = { PlainValue };

    // A change adds at most 255 pairs.
    ghost view = { λ g.
        record { pairs = g.pairs.items; spare = (vec_capacity g.pairs - vec_len g.pairs) / 255 } };
}

impl PlainGraph {
    /// The graph without pairs.
    pub fn new(alloc: Global) -> PlainGraph
        ensures { result.pairs ≡ [] }
    {
        PlainGraph {
            pairs: Vec::new(alloc),
        }
    }
}

impl Graph for PlainGraph {
    ghost pairs = { λ g. g.pairs };

    ghost spare = { λ g. g.spare };

    fn direct_dependents(&self, q: Range, out: &mut Vec<Range>) -> Result<(), Memory> {
        for pair in &self.pairs {
            if pair.range.overlaps(&q) {
                out.push(Range::of(pair.cell, pair.cell))?;
            }
        }
        Ok(())
    }

    fn direct_precedents(&self, q: Range, out: &mut Vec<Range>) -> Result<(), Memory> {
        for pair in &self.pairs {
            if q.contains(pair.cell) {
                out.push(pair.range)?;
            }
        }
        Ok(())
    }

    fn ahead(&self, q: Range, out: &mut Vec<Range>) -> Result<(), Memory> {
        self.direct_dependents(q, out)
    }

    fn behind(&self, q: Range, out: &mut Vec<Range>) -> Result<(), Memory> {
        self.direct_precedents(q, out)
    }

    fn reserve(&mut self, changes: u32) -> Result<(), Memory> {
        self.pairs.reserve(changes as usize * MAX_REFERENCES)?;
        Ok(())
    }

    fn replace(&mut self, cell: Cell, refs: &Refs) {
        drop_pairs(&mut self.pairs, cell);
        for range in refs.ranges() {
            // There is room, so that this takes no memory and can't fail.
            let _ = self.pairs.push(Dependency {
                range: *range,
                cell,
            });
        }
    }

    fn add_run(&mut self, run: Range, series: &[Series]) -> Result<(), Memory> {
        let cells = run.tail().row() - run.head().row() + 1;
        // Room for all pairs comes first, so that after Memory nothing has changed.
        self.pairs.reserve(series.len() * cells as usize)?;
        for one in series {
            add_series(&mut self.pairs, run, one);
        }
        Ok(())
    }
}
