// What no clause says: that calls succeed where memory is ample, and that chains are what a person who knows
// spreadsheets expects. The expected values were worked out by hand.
use crate::edge_texts::{cell, listed};
use crate::plain_tests::graph_of;
use dep_path::{is_chain, path};
use plain_graph::PlainGraph;
use sheet_refs::Cell;
use std::alloc::Global;
use std::process::Abort;
use std::test::Fail;

fn chain_between(
    alloc: Global,
    graph: &PlainGraph,
    from: &str,
    to: &str,
) -> Result<Option<Vec<Cell>>, Fail> {
    let (from, to) = (cell(from)?, cell(to)?);
    Ok(path(alloc, graph, from, to)?)
}

fn shortest(alloc: Global, graph: &PlainGraph, from: &str, to: &str) -> Result<String, Fail> {
    match chain_between(alloc, graph, from, to)? {
        Some(chain) => listed(alloc, &chain),
        None => Ok(String::from_str(alloc, "none")?),
    }
}

// From a cell to another, and the chain that is wanted.
type Row = (&'static str, &'static str, &'static str);

// Looks for the chain of each row.
fn are_shortest(
    rt: &impl Abort,
    alloc: Global,
    pairs: &[(&str, &str)],
    rows: &[Row],
) -> Result<(), Fail> {
    let graph = graph_of(alloc, pairs)?;
    for row in rows {
        let chain = shortest(alloc, &graph, row.0, row.1)?;
        is_shortest(rt, row, &chain);
    }
    Ok(())
}

fn is_shortest(rt: &impl Abort, row: &Row, chain: &str) {
    assert_eq!(rt; (row.0, row.1, chain), *row);
}

// The sheet of the two records `1,=A1+1` and `2,=A2+B1`: each case is from, to, and the chain.
#[test]
fn a_small_sheet(rt: HostRuntime) -> Result<(), Fail> {
    are_shortest(
        &rt,
        rt.alloc(),
        &[("B1", "A1"), ("B2", "A2:B2"), ("B2", "B1")],
        &[
            ("A1", "B2", "A1 B1 B2"),
            ("B2", "A1", "none"),
            ("A1", "A1", "A1"),
            ("C7", "C7", "C7"),
            ("A2", "B2", "none"),
        ],
    )
}

fn cells_of(alloc: Global, names: &str) -> Result<Vec<Cell>, Fail> {
    let mut cells = Vec::new(alloc);
    for name in names.split_whitespace() {
        cells.push(cell(name)?)?;
    }
    Ok(cells)
}

// Whether a list of cells is a chain where B1 refers to A1, and B2 to B1.
fn are_chain(alloc: Global, names: &str) -> Result<bool, Fail> {
    let graph = graph_of(alloc, &[("B1", "A1"), ("B2", "B1")])?;
    let cells = cells_of(alloc, names)?;
    Ok(is_chain(alloc, &graph, &cells)?)
}

// Lists of cells, and whether they are chains.
#[test]
fn lists_of_cells(rt: HostRuntime) -> Result<(), Fail> {
    for &(names, wanted) in &[
        ("A1 B1 B2", true),
        ("B2", true),
        ("A1 B2", false),
        ("B1 A1", false),
        ("", false),
    ] {
        let are = are_chain(rt.alloc(), names)?;
        assert_eq!(rt; (names, are), (names, wanted));
    }
    Ok(())
}
