// Cells, ranges and edges by their texts, and what an edge answers.
use edge_patterns::{Edge, Pattern, back, direct, split, spread};
use sheet_refs::{Cell, Range, cell_of, range_of};
use std::alloc::Global;
use std::fmt::{Display, Write};
use std::test::Fail;

pub(crate) fn cell(text: &str) -> Result<Cell, Fail> {
    Ok(cell_of(text.as_bytes()).ok_or("no cell")?)
}

pub(crate) fn cell_at(row: u32, col: u32) -> Result<Cell, Fail> {
    Ok(Cell::new(row, col).ok_or("no cell")?)
}

pub(crate) fn range(text: &str) -> Result<Range, Fail> {
    Ok(range_of(text.as_bytes()).ok_or("no range")?)
}

// Ranges or cells in their order.
pub(crate) fn listed<T: Display>(alloc: Global, items: &[T]) -> Result<String, Fail> {
    let mut text = String::new(alloc);
    for item in items {
        add_listed(&mut text, item)?;
    }
    Ok(text)
}

fn add_listed<T: Display>(text: &mut String, item: &T) -> Result<(), Fail> {
    if !text.is_empty() {
        text.push(' ')?;
    }
    write!(text, "{item}")?;
    Ok(())
}

fn name_of(pattern: Pattern) -> &'static str {
    match pattern {
        Pattern::Single => "Single",
        Pattern::Rr => "RR",
        Pattern::Rf => "RF",
        Pattern::Fr => "FR",
        Pattern::Ff => "FF",
        Pattern::Chain => "Chain",
    }
}

// The run, the rectangle and the pattern of an edge.
pub(crate) fn shown(alloc: Global, edge: Option<Edge>) -> Result<String, Fail> {
    let Some(edge) = edge else {
        return Ok(String::from_str(alloc, "None")?);
    };
    let (dep, prec) = (edge.dep(), edge.prec());
    let pattern = name_of(edge.pattern());
    Ok(format!(in alloc; "{dep} {prec} {pattern}")?)
}

// The same of each of some edges, in their order.
pub(crate) fn edges_shown(alloc: Global, edges: &[Edge]) -> Result<String, Fail> {
    let mut text = String::new(alloc);
    for edge in edges {
        let (dep, prec) = (edge.dep(), edge.prec());
        let pattern = name_of(edge.pattern());
        write!(text, "{dep} {prec} {pattern}; ")?;
    }
    Ok(text)
}

fn found(alloc: Global, range: Option<Range>) -> Result<String, Fail> {
    let Some(range) = range else {
        return Ok(String::from_str(alloc, "None")?);
    };
    Ok(format!(in alloc; "{range}")?)
}

// What is asked of an edge: itself, its parts before and after a cell, or a query for a range.
#[derive(Clone, Copy)]
pub(crate) enum Ask {
    Whole,
    Parts,
    Direct,
    Spread,
    Back,
}

// What an edge answers where it is asked at this cell or range.
pub(crate) fn answer(alloc: Global, edge: &Edge, ask: Ask, at: &str) -> Result<String, Fail> {
    match ask {
        Ask::Whole => shown(alloc, Some(*edge)),
        Ask::Parts => parts(alloc, edge, cell(at)?),
        Ask::Direct => found(alloc, direct(edge, range(at)?)),
        Ask::Spread => found(alloc, spread(edge, range(at)?)),
        Ask::Back => found(alloc, back(edge, range(at)?)),
    }
}

// The parts of an edge before and after a cell.
fn parts(alloc: Global, edge: &Edge, at: Cell) -> Result<String, Fail> {
    if !edge.dep().contains(at) {
        return Err(Fail::from("not in the run"));
    }
    let (before, after) = split(edge, at);
    let before = shown(alloc, before)?;
    let after = shown(alloc, after)?;
    Ok(format!(in alloc; "{before}, {after}")?)
}
