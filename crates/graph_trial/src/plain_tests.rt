// What no clause says: that calls succeed where memory is ample, and that walks mean what a person who
// knows spreadsheets expects. The expected values were worked out by hand.
use crate::edge_texts::{cell, listed, range};
use graph_walk::{Graph, dependents, on_cycle, precedents};
use plain_graph::PlainGraph;
use sheet_refs::{Cell, Range, Refs};
use std::alloc::Global;
use std::process::Abort;
use std::test::Fail;

// A cell has these references now.
pub(crate) fn give<G: Graph>(graph: &mut G, at: Cell, refs: &Refs) -> Result<(), Fail> {
    graph.reserve(1)?;
    graph.replace(at, refs);
    Ok(())
}

// A cell refers to this range alone now.
pub(crate) fn refer_to<G: Graph>(
    alloc: Global,
    graph: &mut G,
    at: Cell,
    to: Range,
) -> Result<(), Fail> {
    let refs = Refs::of(alloc, &[to])?;
    give(graph, at, &refs)
}

fn refer(alloc: Global, graph: &mut PlainGraph, at: &str, to: &str) -> Result<(), Fail> {
    let (at, to) = (cell(at)?, range(to)?);
    refer_to(alloc, graph, at, to)
}

// A graph in which cells refer to ranges, as these pairs of texts say one after the other.
pub(crate) fn graph_of(alloc: Global, pairs: &[(&str, &str)]) -> Result<PlainGraph, Fail> {
    let mut graph = PlainGraph::new(alloc);
    for (at, to) in pairs {
        refer(alloc, &mut graph, at, to)?;
    }
    Ok(graph)
}

// What depends on a range in such a graph.
fn ahead(alloc: Global, pairs: &[(&str, &str)], asked: &str) -> Result<Vec<Range>, Fail> {
    let asked = range(asked)?;
    let graph = graph_of(alloc, pairs)?;
    let set = dependents(alloc, &graph, asked)?;
    Ok(set.columns()?)
}

// On what it depends.
fn behind(alloc: Global, pairs: &[(&str, &str)], asked: &str) -> Result<Vec<Range>, Fail> {
    let asked = range(asked)?;
    let graph = graph_of(alloc, pairs)?;
    let set = precedents(alloc, &graph, asked)?;
    Ok(set.columns()?)
}

// Holds what depends on a range against what is wanted.
fn is_ahead(
    rt: &impl Abort,
    alloc: Global,
    pairs: &[(&str, &str)],
    asked: &str,
    wanted: &str,
) -> Result<(), Fail> {
    let ranges = ahead(alloc, pairs, asked)?;
    let text = listed(alloc, &ranges)?;
    assert_eq!(rt; text.as_str(), wanted);
    Ok(())
}

// The same of that on which it depends.
fn is_behind(
    rt: &impl Abort,
    alloc: Global,
    pairs: &[(&str, &str)],
    asked: &str,
    wanted: &str,
) -> Result<(), Fail> {
    let ranges = behind(alloc, pairs, asked)?;
    let text = listed(alloc, &ranges)?;
    assert_eq!(rt; text.as_str(), wanted);
    Ok(())
}

// The sheet of the two records `1,=A1+1` and `2,=A2+B1`.
const SMALL: [(&str, &str); 3] = [("B1", "A1"), ("B2", "A2:B2"), ("B2", "A2")];

#[test]
fn a_small_sheet(rt: HostRuntime) -> Result<(), Fail> {
    is_ahead(&rt, rt.alloc(), &SMALL, "A1", "A1:A1 B1:B1")?;
    is_behind(&rt, rt.alloc(), &SMALL, "B1:B2", "A1:A2 B1:B2")
}

// `=B1,=A1` is a cycle; a third cell `=A1` only leads to it.
const CYCLES: [(&str, &str); 4] = [("A1", "B1"), ("B1", "A1"), ("C1", "A1"), ("D1", "D1:D2")];

fn is_on_cycle(alloc: Global, name: &str) -> Result<bool, Fail> {
    let cell = cell(name)?;
    let graph = graph_of(alloc, &CYCLES)?;
    Ok(on_cycle(alloc, &graph, cell)?)
}

#[test]
fn cycles(rt: HostRuntime) -> Result<(), Fail> {
    for &(name, on) in &[
        ("A1", true),
        ("B1", true),
        ("C1", false),
        ("D1", true),
        ("E1", false),
    ] {
        let found = is_on_cycle(rt.alloc(), name)?;
        assert_eq!(rt; (name, found), (name, on));
    }
    Ok(())
}
