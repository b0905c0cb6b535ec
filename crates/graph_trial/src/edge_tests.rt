// What no clause says: that the definitions mean what they should. The table was worked out by hand.
use crate::edge_texts::{Ask, answer, cell, cell_at, range, shown};
use edge_patterns::{Edge, join};
use sheet_refs::Range;
use std::alloc::Global;
use std::process::Abort;
use std::test::Fail;

// An edge with one more behind it, where there is an edge yet.
fn extended(front: Option<Edge>, next: Edge) -> Result<Edge, Fail> {
    let Some(front) = front else {
        return Ok(next);
    };
    Ok(join(&front, &next).ok_or("no edge")?)
}

fn single(at: &str, text: &str) -> Result<Edge, Fail> {
    let cell = cell(at)?;
    Ok(Edge::single(cell, range(text)?))
}

// The edge of neighbouring cells with these ranges, written as `A2 A1:A1` and so on.
fn edge(pairs: &[(&str, &str)]) -> Result<Edge, Fail> {
    let mut joined = None;
    for (at, text) in pairs {
        joined = Some(extended(joined, single(at, text)?)?);
    }
    Ok(joined.ok_or("no pairs")?)
}

// Holds what two edges are joined into against what is wanted, in this order and in the other.
fn are_joined(
    rt: &impl Abort,
    alloc: Global,
    front: &Edge,
    back: &Edge,
    wanted: &str,
) -> Result<(), Fail> {
    is_joined(rt, alloc, front, back, wanted)?;
    is_joined(rt, alloc, back, front, wanted)
}

fn is_joined(
    rt: &impl Abort,
    alloc: Global,
    front: &Edge,
    back: &Edge,
    wanted: &str,
) -> Result<(), Fail> {
    let text = shown(alloc, join(front, back))?;
    assert_eq!(rt; text.as_str(), wanted);
    Ok(())
}

#[test]
fn neighbours_are_joined(rt: HostRuntime) -> Result<(), Fail> {
    const CASES: [(&[(&str, &str)], &[(&str, &str)], &str); 6] = [
        (&[("A2", "A1:A1")], &[("A3", "A2:A2")], "A2:A3 A1:A2 Chain"),
        (&[("B1", "A1:A3")], &[("B2", "A2:A3")], "B1:B2 A1:A3 RF"),
        (&[("B1", "A1:A1")], &[("B2", "A1:A2")], "B1:B2 A1:A2 FR"),
        (&[("B5", "B2:B4")], &[("C5", "C2:C4")], "B5:C5 B2:C4 RR"),
        (&[("B1", "A1:A1")], &[("C1", "B1:B1")], "B1:C1 A1:B1 Chain"),
        (
            &[("A2", "A1:A1"), ("A3", "A2:A2")],
            &[("A5", "A4:A4")],
            "None",
        ),
    ];
    for &(front, back, wanted) in &CASES {
        are_joined(&rt, rt.alloc(), &edge(front)?, &edge(back)?, wanted)?;
    }
    Ok(())
}

// What is asked of an edge, the cell or the range at which it is asked, and the answer that is wanted.
type Row = (Ask, &'static str, &'static str);

// Holds the answers of an edge against those that are wanted.
fn answers(rt: &impl Abort, alloc: Global, edge: &Edge, rows: &[Row]) -> Result<(), Fail> {
    for (ask, at, wanted) in rows {
        let text = answer(alloc, edge, *ask, at)?;
        is_answer(rt, at, &text, wanted);
    }
    Ok(())
}

fn is_answer(rt: &impl Abort, at: &str, text: &str, wanted: &str) {
    assert_eq!(rt; (at, text), (at, wanted));
}

// The edge of a cell of column B that refers to column A down to its row.
fn down_to(row: u32) -> Result<Edge, Fail> {
    let at = cell_at(row, 2)?;
    let (head, tail) = (cell_at(1, 1)?, cell_at(row, 1)?);
    Ok(Edge::single(at, Range::of(head, tail)))
}

// An edge of 1,000 such cells.
fn growing() -> Result<Edge, Fail> {
    let mut joined = None;
    for row in 1..1001 {
        joined = Some(extended(joined, down_to(row)?)?);
    }
    Ok(joined.ok_or("no cells")?)
}

const GROWING: [Row; 2] = [
    (Ask::Whole, "", "B1:B1000 A1:A1000 FR"),
    (Ask::Direct, "A500:A500", "B500:B1000"),
];

// The pairs of edges that are asked, and what they answer.
const ASKED: [(&[(&str, &str)], &[Row]); 3] = [
    (
        &[
            ("A2", "A1:A1"),
            ("A3", "A2:A2"),
            ("A4", "A3:A3"),
            ("A5", "A4:A4"),
            ("A6", "A5:A5"),
        ],
        &[
            (Ask::Whole, "", "A2:A6 A1:A5 Chain"),
            (Ask::Parts, "A3", "A2:A2 A1:A1 Single, A4:A6 A3:A5 Chain"),
            (Ask::Direct, "A3:A3", "A4:A4"),
            (Ask::Spread, "A3:A3", "A4:A6"),
            (Ask::Back, "A4:A4", "A1:A3"),
        ],
    ),
    (
        &[("B1", "A1:A1"), ("B2", "A1:A2")],
        &[(Ask::Parts, "B2", "B1:B1 A1:A1 Single, None")],
    ),
    (
        &[("B1", "A1:A3"), ("B2", "A2:A3"), ("B3", "A3:A3")],
        &[
            (Ask::Whole, "", "B1:B3 A1:A3 RF"),
            (Ask::Direct, "A2:A2", "B1:B2"),
        ],
    ),
];

#[test]
fn edges_are_split_and_asked(rt: HostRuntime) -> Result<(), Fail> {
    for &(pairs, rows) in &ASKED {
        answers(&rt, rt.alloc(), &edge(pairs)?, rows)?;
    }
    answers(&rt, rt.alloc(), &growing()?, &GROWING)
}
