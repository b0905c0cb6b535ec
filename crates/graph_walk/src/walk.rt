ghost use Rattle.std.specs.Prelude.{◌↔◌, IfOk, OnOk, IsTrue};
ghost use Rattle.graph_walk.specs.Graphs.{HoldsReach, HoldsBack, IsOnCycle};
ghost use Rattle.graph_walk.specs.Starts.{HoldsReachOfAll};
ghost use Rattle.graph_walk.specs.Walks.{AddsNext, IsWalk};

use crate::gathering::gather;
use crate::graph::Graph;
use sheet_refs::{Cell, Memory, Range, RectSet};
use std::alloc::Global;

/// Which way a walk goes.
#[derive(Clone, Copy)]
enum Direction {
    /// To the cells that depend on those that it is at.
    Ahead,
    /// To the cells on which they depend.
    Behind,
}

// Adds the ranges that the graph answers ahead of a range or behind it.
fn next_ranges<G: Graph>(
    graph: &G,
    direction: Direction,
    range: Range,
    out: &mut Vec<Range>,
) -> Result<(), Memory>
    ensures { OnOk result
        (AddsNext direction (G.pairs graph.now) range out.old.items out.new.items) }
{
    match direction {
        Direction::Ahead => graph.ahead(range, out),
        Direction::Behind => graph.behind(range, out),
    }
}

// All cells that a walk from some ranges reaches. Each range that adds cells to the set is asked for once.
fn walk<G: Graph>(
    alloc: Global,
    graph: &G,
    direction: Direction,
    starts: &[Range],
) -> Result<RectSet, Memory>
    ensures { IfOk result (IsWalk direction (G.pairs graph.now) starts.now) }
{
    let mut set = RectSet::new(alloc);
    let mut waiting = Vec::new(alloc);
    gather(&mut set, &mut waiting, starts)?;
    let mut found = Vec::new(alloc);
    while let Some(range) = waiting.pop() {
        found.clear();
        next_ranges(graph, direction, range, &mut found)?;
        gather(&mut set, &mut waiting, &found)?;
    }
    Ok(set)
}

/// The cells of a range and all cells that depend on them in any number of steps.
pub fn dependents<G: Graph>(alloc: Global, graph: &G, q: Range) -> Result<RectSet, Memory>
    ensures { IfOk result (HoldsReach (G.pairs graph.now) q) }
{
    walk(alloc, graph, Direction::Ahead, &[q])
}

/// The cells of some ranges and all cells that depend on them in any number of steps, by one walk from all of them.
pub fn dependents_of_all<G: Graph>(
    alloc: Global,
    graph: &G,
    ranges: &[Range],
) -> Result<RectSet, Memory>
    ensures { IfOk result (HoldsReachOfAll (G.pairs graph.now) ranges.now) }
{
    walk(alloc, graph, Direction::Ahead, ranges)
}

/// The cells of a range and all cells on which they depend in any number of steps.
pub fn precedents<G: Graph>(alloc: Global, graph: &G, q: Range) -> Result<RectSet, Memory>
    ensures { IfOk result (HoldsBack (G.pairs graph.now) q) }
{
    walk(alloc, graph, Direction::Behind, &[q])
}

/// Whether the cell is reached again from its own references: a cell that only leads to a cycle is not on one.
pub fn on_cycle<G: Graph>(alloc: Global, graph: &G, cell: Cell) -> Result<bool, Memory>
    ensures { IfOk result (λ on. IsTrue on ↔ IsOnCycle (G.pairs graph.now) cell) }
{
    let mut next = Vec::new(alloc);
    graph.ahead(Range::of(cell, cell), &mut next)?;
    let reached = walk(alloc, graph, Direction::Ahead, &next)?;
    Ok(reached.contains(cell))
}
