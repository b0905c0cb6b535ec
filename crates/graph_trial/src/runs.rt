// Runs of cells down a column that come at once into a graph in which other cells have their ranges.
ghost use Rattle.std.specs.Prelude.{◌≡◌, ◌<◌, [], IsTrue, OnOk};
ghost use Rattle.graph_walk.specs.Series.{GoesOn, GoOn, LackRun, steps_of};

use crate::edge_texts::{cell, range};
use graph_walk::{Graph, Series};
use sheet_refs::{Cell, Range, Refs};
use std::alloc::Global;
use std::test::Fail;

// A cell with one range, or with two where the second isn't empty.
pub(crate) type Standing = (&'static str, &'static str, &'static str);

// The ranges of the first cell and of the last.
pub(crate) type Ends = (&'static str, &'static str);

// The cells that stand there, the run that comes, and its series: one, or two where the second isn't empty.
#[derive(Clone, Copy)]
pub(crate) struct Case {
    pub(crate) before: &'static [Standing],
    pub(crate) run: &'static str,
    pub(crate) one: Ends,
    pub(crate) other: Ends,
}

fn refs_in(alloc: Global, one: &str, other: &str) -> Result<Refs, Fail> {
    let first = range(one)?;
    if other.is_empty() {
        return Ok(Refs::of(alloc, &[first])?);
    }
    let second = range(other)?;
    if first == second {
        return Err(Fail::from("one range twice"));
    }
    Ok(Refs::of(alloc, &[first, second])?)
}

fn series_in(ends: Ends) -> Result<Series, Fail> {
    let first = range(ends.0)?;
    let last = range(ends.1)?;
    Ok(Series { first, last })
}

// Gives ranges to a cell that isn't one of the run.
fn put<G: Graph>(graph: &mut G, run: Range, at: Cell, refs: &Refs) -> Result<(), Fail>
    requires { LackRun (G.pairs graph.old) run }
    ensures { OnOk result (LackRun (G.pairs graph.new) run) }
{
    if run.contains(at) {
        return Err(Fail::from("a cell of the run"));
    }
    graph.reserve(1)?;
    graph.replace(at, refs);
    Ok(())
}

// Puts the cells that stand there into a graph.
fn put_all<G: Graph>(
    alloc: Global,
    graph: &mut G,
    run: Range,
    cells: &[Standing],
) -> Result<(), Fail>
    requires { LackRun (G.pairs graph.old) run }
    ensures { OnOk result (LackRun (G.pairs graph.new) run) }
{
    for (at, one, other) in cells {
        let refs = refs_in(alloc, one, other)?;
        put(graph, run, cell(at)?, &refs)?;
    }
    Ok(())
}

// Whether an end stays, or goes on by a row at each of so many steps.
fn end_goes_on(first: Cell, last: Cell, steps: u32) -> bool
    ensures { IsTrue result → GoesOn steps first last }
{
    let (from, to) = (first.row(), last.row());
    last.col() == first.col() && (to == from || (from <= to && to - from == steps))
}

// Whether the cells of a run can have the ranges of a series.
fn goes_on(run: Range, series: &Series) -> bool
    ensures { IsTrue result → GoOn (steps_of run) series.now }
{
    let steps = run.tail().row() - run.head().row();
    end_goes_on(series.first.head(), series.last.head(), steps)
        && end_goes_on(series.first.tail(), series.last.tail(), steps)
}

// Whether a range is several cells of one column.
fn is_run(run: Range) -> bool
    ensures { IsTrue result → ((run.tail.col ≡ run.head.col) × (run.head.row < run.tail.row)) }
{
    run.tail().col() == run.head().col() && run.head().row() < run.tail().row()
}

fn add_one<G: Graph>(graph: &mut G, run: Range, one: Series) -> Result<(), Fail>
    requires { LackRun (G.pairs graph.old) run }
{
    if !is_run(run) || !goes_on(run, &one) {
        return Err(Fail::from("no run"));
    }
    Ok(graph.add_run(run, &[one])?)
}

// The ranges of two series differ where they begin in different columns.
fn add_two<G: Graph>(graph: &mut G, run: Range, one: Series, other: Series) -> Result<(), Fail>
    requires { LackRun (G.pairs graph.old) run }
{
    let apart = one.first.head().col() != other.first.head().col();
    if !apart || !is_run(run) || !goes_on(run, &one) || !goes_on(run, &other) {
        return Err(Fail::from("no run"));
    }
    Ok(graph.add_run(run, &[one, other])?)
}

// Adds the run at once.
fn add<G: Graph>(graph: &mut G, run: Range, case: &Case) -> Result<(), Fail>
    requires { LackRun (G.pairs graph.old) run }
{
    let one = series_in(case.one)?;
    if case.other.0.is_empty() {
        return add_one(graph, run, one);
    }
    let other = series_in(case.other)?;
    add_two(graph, run, one, other)
}

// Puts the cells of a case into a graph without pairs, and then its run.
pub(crate) fn fill<G: Graph>(alloc: Global, graph: &mut G, case: &Case) -> Result<(), Fail>
    requires { G.pairs graph.old ≡ [] }
{
    let run = range(case.run)?;
    put_all(alloc, graph, run, case.before)?;
    add(graph, run, case)
}
