// What no clause says: that a range is filled where there is memory, and that the definitions mean what they should.
// The wanted texts were worked out by hand.
use crate::edge_texts::{cell, range, shown};
use formula_syntax::{Edition, print};
use sheet_fill::{FillRefused, fill, filled_edge};
use sheet_model::{Change, Content, Edit, Sheet};
use sheet_refs::ref_of;
use std::alloc::Global;
use std::fmt::Write;
use std::test::Fail;

// The edge of a run that is filled with a reference.
fn edge_of(alloc: Global, run: &str, reference: &str) -> Result<String, Fail> {
    let run = range(run)?;
    let reference = ref_of(false, reference.as_bytes()).ok_or("no reference")?;
    if run.head().col() != run.tail().col() && run.head().row() != run.tail().row() {
        return Err(Fail::from("no run"));
    }
    shown(alloc, filled_edge(run, &reference))
}

#[test]
fn filled_runs_are_edges(rt: HostRuntime) -> Result<(), Fail> {
    for &(run, reference, wanted) in &[
        ("B1:B3", "$A$1:A1", "B1:B3 A1:A3 FR"),
        ("B1:B5", "A1:$A$3", "None"),
        ("B1:B3", "A1:$A$3", "B1:B3 A1:A3 RF"),
        ("B1:B3", "A1", "B1:B3 A1:A3 RR"),
        ("A2:A4", "A1", "A2:A4 A1:A3 Chain"),
        ("B1:D1", "$A$1", "B1:D1 A1:A1 FF"),
        ("B5:B5", "A1:A4", "B5:B5 A1:A4 Single"),
        ("A1:C1", "XFB1", "A1:C1 XFB1:XFD1 RR"),
        ("A1:C1", "XFC1", "None"),
    ] {
        let edge = edge_of(rt.alloc(), run, reference)?;
        assert_eq!(rt; edge.as_str(), wanted);
    }
    Ok(())
}

// A sheet of one column with a text in its first cell.
fn sheet_with(alloc: Global, rows: u32, field: &str) -> Result<Sheet, Fail> {
    if rows == 0 || rows > 2_000 || field.len() > 8_192 {
        return Err(Fail::from("too much for a test"));
    }
    let mut sheet = Sheet::blank(alloc, rows, 1, Edition::One)?;
    let cell = cell("A1")?;
    if !sheet.holds(cell) || sheet.labels().length() > 1_000 {
        return Err(Fail::from("no such cell"));
    }
    let Ok(content) = sheet.read(field) else {
        return Err(Fail::from("refused"));
    };
    let _ = sheet.put(Change { cell, content });
    Ok(sheet)
}

// Adds a change as its cell and its formula.
fn add_formula(alloc: Global, text: &mut String, change: &Change) -> Result<(), Fail> {
    let Content::Formula(formula) = &change.content else {
        return Ok(());
    };
    let cell = change.cell;
    let printed = print(alloc, formula)?;
    let formula = std::str::from_utf8(&printed)?;
    write!(text, "{cell} {formula};")?;
    Ok(())
}

// The changes of an edit.
fn formulas(alloc: Global, edit: &Edit) -> Result<String, Fail> {
    let mut text = String::new(alloc);
    for change in edit.changes() {
        add_formula(alloc, &mut text, change)?;
    }
    Ok(text)
}

// The changes by which a range is filled from A1, each as its cell and its formula, or why it isn't.
fn filled(alloc: Global, sheet: &Sheet, to: &str) -> Result<String, Fail> {
    let (from, to) = (cell("A1")?, range(to)?);
    if !sheet.holds(from) || !sheet.holds(to.head()) || !sheet.holds(to.tail()) {
        return Err(Fail::from("past the sheet"));
    }
    match fill(alloc, sheet, from, to) {
        Ok(edit) => formulas(alloc, &edit),
        Err(FillRefused::Nothing) => Ok(String::from_str(alloc, "nothing")?),
        Err(FillRefused::TooMany { cells }) => Ok(format!(in alloc; "{cells} too many")?),
        Err(FillRefused::Memory) => Err(Fail::from("no memory")),
    }
}

#[test]
fn ranges_are_filled(rt: HostRuntime) -> Result<(), Fail> {
    let alloc = rt.alloc();
    let sheet = sheet_with(alloc, 1_100, "=SUM($B$1:B1)")?;
    for &(to, wanted) in &[
        ("A1:A3", "A2 =SUM($B$1:B2);A3 =SUM($B$1:B3);"),
        ("A1", "nothing"),
        ("A1:A1026", "1025 too many"),
        ("A2:A1026", "1025 too many"),
    ] {
        let text = filled(alloc, &sheet, to)?;
        assert_eq!(rt; text.as_str(), wanted);
    }
    Ok(())
}
