// What no clause says: that copies are made where there is memory, and that a content is small.
use crate::texts::sheet_text;
use formula_syntax::Edition;
use sheet_model::{Change, Content, Edit, Entry, Sheet};
use sheet_refs::{Cell, cell_of};
use std::alloc::Global;
use std::fmt::Write;
use std::mem;
use std::test::Fail;

fn cell(name: &str) -> Result<Cell, Fail> {
    Ok(cell_of(name.as_bytes()).ok_or("no cell")?)
}

// Puts what a field says into a cell.
fn put(sheet: &mut Sheet, name: &str, field: &str) -> Result<(), Fail> {
    let cell = cell(name)?;
    if field.len() > 8_192 || !sheet.holds(cell) || sheet.labels().length() == u32::MAX {
        return Err(Fail::from("a field that has no place"));
    }
    let Ok(content) = sheet.read(field) else {
        return Err(Fail::from("a field that is not read"));
    };
    let _ = sheet.put(Change { cell, content });
    Ok(())
}

// A sheet of one row with a label, a formula and nothing.
fn small(alloc: Global) -> Result<Sheet, Fail> {
    let mut sheet = Sheet::blank(alloc, 1, 3, Edition::One)?;
    put(&mut sheet, "A1", "Rent")?;
    put(&mut sheet, "B1", "=A1+1")?;
    Ok(sheet)
}

#[test]
fn copies_have_the_contents_and_the_labels(rt: HostRuntime) -> Result<(), Fail> {
    let sheet = small(rt.alloc())?.copy()?;
    let text = sheet_text(rt.alloc(), &sheet)?;
    let labels = sheet.labels().length();
    assert_eq!(rt; (text.as_str(), labels), ("1x3:0<Rent> f _ ", 1));
    Ok(())
}

// An entry of the third client that puts the formula of the small sheet into C1.
fn small_entry(alloc: Global) -> Result<Entry, Fail> {
    let sheet = small(alloc)?;
    let content = sheet.content(cell("B1")?).copy()?;
    let cell = cell("C1")?;
    let edit = Edit::one(alloc, Change { cell, content })?;
    Ok(Entry { client: 3, edit })
}

// The client of an entry, and the cells of its changes, each with whether it gets a formula.
fn entry_text(alloc: Global, entry: &Entry) -> Result<String, Fail> {
    let client = entry.client;
    let mut text = format!(in alloc; "client {client}:")?;
    for change in entry.edit.changes() {
        let cell = change.cell;
        let is_formula = matches!(&change.content, Content::Formula(_));
        write!(text, " {cell} {is_formula}")?;
    }
    Ok(text)
}

#[test]
fn entries_are_copied(rt: HostRuntime) -> Result<(), Fail> {
    let copy = small_entry(rt.alloc())?.copy()?;
    let text = entry_text(rt.alloc(), &copy)?;
    assert_eq!(rt; text.as_str(), "client 3: C1 true");
    Ok(())
}

#[test]
fn a_content_takes_sixteen_bytes(rt: HostRuntime) {
    assert_eq!(&rt; mem::size_of::<Content>(), 16);
}
