// What no clause says: which edges are joined, and that calls succeed where memory is ample. The expected edges were
// worked out by hand.
use crate::edge_texts::{cell_at, edges_shown, listed, range};
use crate::plain_tests::{give, refer_to};
use graph_walk::Graph;
use sheet_refs::{Range, Refs};
use std::alloc::Global;
use std::test::Fail;
use taco_graph::SheetGraph;

// The cell of column A in a row refers to the one above it.
fn refer_above(alloc: Global, graph: &mut SheetGraph, row: u32) -> Result<(), Fail> {
    let above = cell_at(row.saturating_sub(1), 1)?;
    refer_to(alloc, graph, cell_at(row, 1)?, Range::of(above, above))
}

// The cell of column A refers to nothing now.
fn clear(alloc: Global, graph: &mut SheetGraph, row: u32) -> Result<(), Fail> {
    let refs = Refs::of(alloc, &[])?;
    give(graph, cell_at(row, 1)?, &refs)
}

fn shown(alloc: Global, graph: &SheetGraph) -> Result<String, Fail> {
    let edges = graph.edges()?;
    edges_shown(alloc, &edges)
}

// Each cell refers to the one above it.
fn add_chain(alloc: Global, graph: &mut SheetGraph) -> Result<(), Fail> {
    for row in 2..12 {
        refer_above(alloc, graph, row)?;
    }
    Ok(())
}

fn chain(alloc: Global) -> Result<SheetGraph, Fail> {
    let mut graph = SheetGraph::new(alloc);
    add_chain(alloc, &mut graph)?;
    Ok(graph)
}

// Makes so many changes of the chain: A6 refers to nothing, and then to the cell above it again.
fn change(alloc: Global, graph: &mut SheetGraph, changes: u32) -> Result<(), Fail> {
    if changes > 0 {
        clear(alloc, graph, 6)?;
    }
    if changes > 1 {
        refer_above(alloc, graph, 6)?;
    }
    Ok(())
}

// The edges of the chain after so many changes.
fn changed(alloc: Global, changes: u32) -> Result<String, Fail> {
    let mut graph = chain(alloc)?;
    change(alloc, &mut graph, changes)?;
    shown(alloc, &graph)
}

#[test]
fn a_chain_is_cut_and_mended(rt: HostRuntime) -> Result<(), Fail> {
    for &(changes, wanted) in &[
        (0, "A2:A11 A1:A10 Chain; "),
        (1, "A2:A5 A1:A4 Chain; A7:A11 A6:A10 Chain; "),
        (2, "A2:A11 A1:A10 Chain; "),
    ] {
        let text = changed(rt.alloc(), changes)?;
        assert_eq!(rt; (changes, text.as_str()), (changes, wanted));
    }
    Ok(())
}

// What the chain answers to the four queries for a range.
fn answers(alloc: Global, asked: Range) -> Result<Vec<Range>, Fail> {
    let graph = chain(alloc)?;
    let mut found = Vec::new(alloc);
    graph.direct_dependents(asked, &mut found)?;
    graph.direct_precedents(asked, &mut found)?;
    graph.ahead(asked, &mut found)?;
    graph.behind(asked, &mut found)?;
    Ok(found)
}

// What is asked of a chain is answered by one range.
#[test]
fn a_chain_answers_one_range(rt: HostRuntime) -> Result<(), Fail> {
    let found = answers(rt.alloc(), range("A4:A5")?)?;
    let text = listed(rt.alloc(), &found)?;
    assert_eq!(rt; text.as_str(), "A5:A6 A3:A4 A5:A11 A1:A4");
    Ok(())
}
