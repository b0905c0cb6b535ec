// What no clause says: that the pairs of a sheet are those that a person expects. The expected values
// were worked out by hand.
use edit_log::graph_of;
use formula_syntax::Edition;
use graph_walk::{dependents, precedents};
use plain_graph::PlainGraph;
use sheet_model::{Change, Sheet};
use sheet_refs::{Cell, Range, RectSet, cell_of, range_of};
use std::alloc::Global;
use std::fmt::Write;
use std::test::Fail;

// The cell of a name.
pub(crate) fn cell(name: &str) -> Result<Cell, Fail> {
    Ok(cell_of(name.as_bytes()).ok_or("no cell")?)
}

fn range(name: &str) -> Result<Range, Fail> {
    Ok(range_of(name.as_bytes()).ok_or("no range")?)
}

// Puts what a field says into a cell.
pub(crate) fn put(sheet: &mut Sheet, name: &str, field: &str) -> Result<(), Fail> {
    let cell = cell(name)?;
    if field.len() > 8_192 || !sheet.holds(cell) || sheet.labels().length() == u32::MAX {
        return Err(Fail::from("a field that has no place"));
    }
    let Ok(content) = sheet.read(field) else {
        return Err(Fail::from("a field that is not read"));
    };
    let _ = sheet.put(Change { cell, content });
    Ok(())
}

// Puts fields into their cells.
fn fill(sheet: &mut Sheet, fields: &[(&str, &str)]) -> Result<(), Fail> {
    for (name, field) in fields {
        put(sheet, name, field)?;
    }
    Ok(())
}

// A sheet with these fields in its cells.
pub(crate) fn filled(blank: Sheet, fields: &[(&str, &str)]) -> Result<Sheet, Fail> {
    let mut sheet = blank;
    fill(&mut sheet, fields)?;
    Ok(sheet)
}

// The vertical runs of a set, each behind a space.
fn add_runs(text: &mut String, set: &RectSet) -> Result<(), Fail> {
    for run in &set.columns()? {
        write!(text, " {run}")?;
    }
    Ok(())
}

// The runs of what depends on a range in the graph of a sheet, and of that on which it depends.
fn walked(alloc: Global, sheet: &Sheet, asked: &str) -> Result<String, Fail> {
    let asked = range(asked)?;
    let graph = graph_of(alloc, PlainGraph::new(alloc), sheet)?;
    let mut text = String::new(alloc);
    add_runs(&mut text, &dependents(alloc, &graph, asked)?)?;
    text.push_str(" and")?;
    add_runs(&mut text, &precedents(alloc, &graph, asked)?)?;
    Ok(text)
}

const FIELDS: [(&str, &str); 4] = [
    ("A1", "x"),
    ("B1", "=A1+SUM($A$2:A3)+A1"),
    ("C1", "=IF(TRUE();1;D4)"),
    ("D4", "=B1"),
];

#[test]
fn graphs_have_the_pairs_of_their_sheets(rt: HostRuntime) -> Result<(), Fail> {
    let blank = Sheet::blank(rt.alloc(), 4, 4, Edition::One)?;
    let sheet = filled(blank, &FIELDS)?;
    for &(asked, wanted) in &[
        ("A3:A3", " A3:A3 B1:B1 C1:C1 D4:D4 and A3:A3"),
        ("B1:B1", " B1:B1 C1:C1 D4:D4 and A1:A3 B1:B1"),
    ] {
        let text = walked(rt.alloc(), &sheet, asked)?;
        assert_eq!(rt; text.as_str(), wanted);
    }
    Ok(())
}
