// What no clause says: that runs come where memory is ample, and which edges there are then. The wanted edges were
// worked out by hand.
ghost use Rattle.std.specs.Prelude.{◌≡◌, []};

use crate::edge_texts::{edges_shown, listed, range};
use crate::runs::{Case, Ends, Standing, fill};
use graph_walk::Graph;
use plain_graph::PlainGraph;
use range_index::ListIndex;
use std::alloc::Global;
use std::process::Abort;
use std::test::Fail;
use taco_graph::{SheetGraph, Taco};

// The cells that stand there, the run that comes, its one or two series, and the edges that there are then.
type Row = (&'static [Standing], &'static str, Ends, Ends, &'static str);

const ALONE: Ends = ("", "");

fn case_in(row: &Row) -> Case {
    Case {
        before: row.0,
        run: row.1,
        one: row.2,
        other: row.3,
    }
}

// The edges of a graph without edges once a case came, and its rectangles are filed.
fn edges_after(alloc: Global, graph: &mut SheetGraph, case: &Case) -> Result<String, Fail>
    requires { graph.old.edges ≡ [] }
{
    fill(alloc, graph, case)?;
    graph.file_rectangles()?;
    let edges = graph.edges()?;
    edges_shown(alloc, &edges)
}

// The same of a graph that begins without rectangles.
fn edges_of(alloc: Global, case: &Case) -> Result<String, Fail> {
    let mut graph = SheetGraph::by_runs(alloc);
    edges_after(alloc, &mut graph, case)
}

fn have_edges(rt: &impl Abort, alloc: Global, rows: &[Row]) -> Result<(), Fail> {
    for row in rows {
        let edges = edges_of(alloc, &case_in(row))?;
        are_edges(rt, &edges, row.4);
    }
    Ok(())
}

fn are_edges(rt: &impl Abort, edges: &str, wanted: &str) {
    assert_eq!(rt; edges, wanted);
}

// One kind of series after the other, into a graph without pairs.
const KINDS: [Row; 8] = [
    (&[], "B1:B4", ("A1:A2", "A1:A2"), ALONE, "B1:B4 A1:A2 FF; "),
    (&[], "B1:B4", ("A1:A2", "A4:A5"), ALONE, "B1:B4 A1:A5 RR; "),
    (&[], "B1:B4", ("A1:A5", "A4:A5"), ALONE, "B1:B4 A1:A5 RF; "),
    (&[], "B1:B4", ("A1:A1", "A1:A4"), ALONE, "B1:B4 A1:A4 FR; "),
    (&[], "A2:A5", ("A1", "A4"), ALONE, "A2:A5 A1:A4 Chain; "),
    (&[], "A1:A4", ("A2", "A5"), ALONE, "A1:A4 A2:A5 Chain; "),
    (&[], "B1:B2", ("A1", "A2"), ALONE, "B1:B2 A1:A2 RR; "),
    (
        &[],
        "B1:B4",
        ("A1", "A4"),
        ("C1:C1", "C1:C4"),
        "B1:B4 A1:A4 RR; B1:B4 C1:C4 FR; ",
    ),
];

// Cells above the run, below it and beside it, which go on with it or don't.
const JOINED: [Row; 10] = [
    (
        &[("B1", "A1", ""), ("B6", "A6", "")],
        "B2:B5",
        ("A2", "A5"),
        ALONE,
        "B1:B6 A1:A6 RR; ",
    ),
    (
        &[("B1", "A1", ""), ("B2", "A1:A2", ""), ("B6", "A1:A6", "")],
        "B3:B5",
        ("A1:A3", "A1:A5"),
        ALONE,
        "B1:B6 A1:A6 FR; ",
    ),
    (
        &[("A2", "A1", ""), ("A7", "A6", ""), ("A8", "A7", "")],
        "A3:A6",
        ("A2", "A5"),
        ALONE,
        "A2:A8 A1:A7 Chain; ",
    ),
    (
        &[("B1", "A1:A9", ""), ("B6", "A1:A9", "")],
        "B2:B5",
        ("A2:A9", "A5:A9"),
        ALONE,
        "B1:B5 A1:A9 RF; B6:B6 A1:A9 Single; ",
    ),
    (
        &[("B1", "A1", "C1"), ("B6", "A6", "C1:C6")],
        "B2:B5",
        ("A2", "A5"),
        ("C1:C2", "C1:C5"),
        "B1:B6 A1:A6 RR; B1:B6 C1:C6 FR; ",
    ),
    (
        &[("B1", "A1", "E1"), ("B2", "A2", "E1")],
        "B3:B5",
        ("E1", "E1"),
        ALONE,
        "B1:B2 A1:A2 RR; B1:B5 E1:E1 FF; ",
    ),
    (
        &[("B1", "A1", "E1"), ("B2", "A2", "E1"), ("B6", "A6", "D6")],
        "B3:B5",
        ("E1", "E1"),
        ("A3", "A5"),
        "B1:B5 E1:E1 FF; B1:B6 A1:A6 RR; B6:B6 D6:D6 Single; ",
    ),
    (
        &[("A4", "A2", ""), ("B4", "B2", "")],
        "C3:C5",
        ("C1", "C3"),
        ALONE,
        "A4:B4 A2:B2 RR; C3:C5 C1:C3 RR; ",
    ),
    (
        &[("D4", "E1", ""), ("E4", "E1", "")],
        "C3:C5",
        ("E1", "E1"),
        ALONE,
        "C3:C5 E1:E1 FF; D4:E4 E1:E1 FF; ",
    ),
    (
        &[("A1", "E1", ""), ("A2", "E1", ""), ("A3", "E1", "")],
        "B1:B3",
        ("E1", "E1"),
        ALONE,
        "A1:A3 E1:E1 FF; B1:B3 E1:E1 FF; ",
    ),
];

// Where the first cell of a run goes on with what is above it or beside it, and the next one doesn't, the run stays
// whole: cell by cell, its first cell would have joined that edge before the next one came.
const WHOLE: [Row; 2] = [
    (
        &[("B1", "A1", "")],
        "B2:B4",
        ("A2", "A2"),
        ALONE,
        "B1:B1 A1:A1 Single; B2:B4 A2:A2 FF; ",
    ),
    (
        &[("A3", "A1", ""), ("B3", "B1", "")],
        "C3:C5",
        ("C1", "C3"),
        ALONE,
        "A3:B3 A1:B1 RR; C3:C5 C1:C3 RR; ",
    ),
];

#[test]
fn runs_leave_an_edge_for_each_series(rt: HostRuntime) -> Result<(), Fail> {
    have_edges(&rt, rt.alloc(), &KINDS)
}

#[test]
fn runs_go_on_with_what_is_above_and_below(rt: HostRuntime) -> Result<(), Fail> {
    have_edges(&rt, rt.alloc(), &JOINED)?;
    have_edges(&rt, rt.alloc(), &WHOLE)
}

// What depends on A2 once a run came that names A1 to A4, each beside its cell.
fn met<G: Graph>(alloc: Global, graph: &mut G) -> Result<String, Fail>
    requires { G.pairs graph.old ≡ [] }
{
    fill(alloc, graph, &case_in(&KINDS[1]))?;
    let mut found = Vec::new(alloc);
    graph.direct_dependents(range("A2")?, &mut found)?;
    listed(alloc, &found)
}

fn met_in_plain(alloc: Global) -> Result<String, Fail> {
    let mut graph = PlainGraph::new(alloc);
    met(alloc, &mut graph)
}

fn met_over_list(alloc: Global) -> Result<String, Fail> {
    let mut graph = Taco::<ListIndex>::new(alloc);
    met(alloc, &mut graph)
}

#[test]
fn runs_come_into_other_graphs(rt: HostRuntime) -> Result<(), Fail> {
    let plain = met_in_plain(rt.alloc())?;
    let edges = met_over_list(rt.alloc())?;
    assert_eq!(rt; (plain.as_str(), edges.as_str()), ("B1:B1 B2:B2", "B1:B2"));
    Ok(())
}
