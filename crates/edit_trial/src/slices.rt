// What no clause says: that values are found slice by slice where there is memory, and in how many slices. The expected
// values were worked out by hand.
ghost use Rattle.std.specs.Prelude.{OnOk};
ghost use Rattle.sheet_model.specs.KeptValues.{KeepsValuesOf};

use crate::graphs::{cell, filled, put};
use edit_log::Book;
use formula_syntax::Edition;
use plain_graph::PlainGraph;
use sheet_model::{Change, Content, Edit, KeptValues, Sheet};
use sheet_refs::Cell;
use std::alloc::Global;
use std::fmt::Write;
use std::test::Fail;
use value_core::Value;

// Adds a value that is a number or an error.
fn add_value(text: &mut String, value: Value) -> Result<(), Fail> {
    match value {
        Value::Number(number) => write!(text, " {}", number.get())?,
        Value::Error(kind) => write!(text, " {}", kind.name())?,
        _ => text.push_str(" other")?,
    }
    Ok(())
}

// Adds the value of a cell, which is asked for as a whole.
fn add_whole(
    text: &mut String,
    values: &mut KeptValues,
    sheet: &Sheet,
    name: &str,
) -> Result<(), Fail>
    requires { KeepsValuesOf sheet.now values.old }
    ensures { OnOk result (KeepsValuesOf sheet.now values.new) }
{
    let cell = cell(name)?;
    if !sheet.holds(cell) {
        return Err(Fail::from("a cell outside the sheet"));
    }
    let value = values.value(sheet, cell)?;
    add_value(text, value)
}

// Adds the values of some cells.
fn add_all(
    text: &mut String,
    values: &mut KeptValues,
    sheet: &Sheet,
    names: &[&str],
) -> Result<(), Fail>
    requires { KeepsValuesOf sheet.now values.old }
    ensures { OnOk result (KeepsValuesOf sheet.now values.new) }
{
    for name in names {
        add_whole(text, values, sheet, *name)?;
    }
    Ok(())
}

// In how many slices of so many steps the value of a cell comes to be kept, if it does in the most that are granted.
fn slices_to(
    values: &mut KeptValues,
    sheet: &Sheet,
    name: &str,
    steps: u32,
    most: u32,
) -> Result<Option<u32>, Fail>
    requires { KeepsValuesOf sheet.now values.old }
    ensures { OnOk result (KeepsValuesOf sheet.now values.new) }
{
    let cell = cell(name)?;
    if !sheet.holds(cell) {
        return Err(Fail::from("a cell outside the sheet"));
    }
    for slice in 0..most {
        let mut steps = steps;
        if values.value_within(sheet, cell, &mut steps)? {
            return Ok(Some(slice + 1));
        }
    }
    Ok(None)
}

// Adds in how many slices of ten steps that is.
fn add_slices(
    text: &mut String,
    values: &mut KeptValues,
    sheet: &Sheet,
    name: &str,
    most: u32,
) -> Result<(), Fail>
    requires { KeepsValuesOf sheet.now values.old }
    ensures { OnOk result (KeepsValuesOf sheet.now values.new) }
{
    match slices_to(values, sheet, name, 10, most)? {
        Some(count) => write!(text, " {count}")?,
        None => text.push_str(" open")?,
    }
    Ok(())
}

// Adds in how many slices the value of A1 is kept, and the value.
fn add_head(text: &mut String, values: &mut KeptValues, sheet: &Sheet) -> Result<(), Fail>
    requires { KeepsValuesOf sheet.now values.old }
    ensures { OnOk result (KeepsValuesOf sheet.now values.new) }
{
    add_slices(text, values, sheet, "A1", 1_000)?;
    add_whole(text, values, sheet, "A1")
}

// Goes on with A1 for fifty slices, asks for another cell that depends on an open one, and goes on for twenty more.
fn add_broken(text: &mut String, values: &mut KeptValues, sheet: &Sheet) -> Result<(), Fail>
    requires { KeepsValuesOf sheet.now values.old }
    ensures { OnOk result (KeepsValuesOf sheet.now values.new) }
{
    add_slices(text, values, sheet, "A1", 50)?;
    add_whole(text, values, sheet, "B1")?;
    add_slices(text, values, sheet, "A1", 20)
}

// A book of a sheet of 1,000 rows. Each cell of column A is one more than the one below it, and the last is 1. B1 is
// one more than the cell halfway down.
fn chain(alloc: Global) -> Result<Book<PlainGraph>, Fail> {
    let blank = Sheet::blank(alloc, 1_000, 2, Edition::One)?;
    let mut sheet = filled(blank, &[("A1000", "1"), ("B1", "=A500+1")])?;
    for row in 1..1_000 {
        let below = row + 1;
        let name = format!(in alloc; "A{row}")?;
        let field = format!(in alloc; "=A{below}+1")?;
        put(&mut sheet, name.as_str(), field.as_str())?;
    }
    Ok(Book::open(alloc, sheet, PlainGraph::new(alloc))?)
}

// Empties a cell of a book.
fn clear(alloc: Global, book: &mut Book<PlainGraph>, name: &str) -> Result<(), Fail> {
    let cell = cell(name)?;
    let content = Content::Empty;
    let edit = Edit::one(alloc, Change { cell, content })?;
    let prepared = book.prepare(0, edit)?;
    let _applied = book.apply(prepared);
    Ok(())
}

// How the values of a chain are found without a break.
fn told_whole(alloc: Global) -> Result<String, Fail> {
    let mut book = chain(alloc)?;
    let mut text = String::new(alloc);
    let mut values = book.take_values()?;
    add_head(&mut text, &mut values, book.sheet())?;
    Ok(text)
}

// The same with another question and an edit in between.
fn told_broken(alloc: Global) -> Result<String, Fail> {
    let mut book = chain(alloc)?;
    let mut text = String::new(alloc);
    let mut values = book.take_values()?;
    add_broken(&mut text, &mut values, book.sheet())?;
    book.keep_values(values);
    clear(alloc, &mut book, "A1000")?;
    let mut values = book.take_values()?;
    add_head(&mut text, &mut values, book.sheet())?;
    Ok(text)
}

#[test]
fn a_chain_upward_is_found_in_slices(rt: HostRuntime) -> Result<(), Fail> {
    // 998 cells are opened, the one above the last is settled at once, and then the 998 are.
    let text = told_whole(rt.alloc())?;
    assert_eq!(rt; text.as_str(), " 200 1000");
    Ok(())
}

#[test]
fn questions_and_edits_come_in_between(rt: HostRuntime) -> Result<(), Fail> {
    let text = told_broken(rt.alloc())?;
    assert_eq!(rt; text.as_str(), " open 502 open 200 999");
    Ok(())
}

// In how many slices of one step the value of a cell is found, and then the values of all cells of a small sheet.
fn told_cycle(alloc: Global, asked: &str) -> Result<String, Fail> {
    let blank = Sheet::blank(alloc, 3, 2, Edition::One)?;
    let fields = [
        ("A1", "=A2+1"),
        ("A2", "=A3+1"),
        ("A3", "=A2+B3"),
        ("B1", "=A1"),
        ("B2", "=B3+1"),
        ("B3", "7"),
    ];
    let sheet = filled(blank, &fields)?;
    let mut text = String::new(alloc);
    let mut values = KeptValues::new(alloc, &sheet)?;
    if let Some(count) = slices_to(&mut values, &sheet, asked, 1, 100)? {
        write!(text, "{count}:")?;
    }
    add_all(
        &mut text,
        &mut values,
        &sheet,
        &["A1", "A2", "A3", "B1", "B2", "B3"],
    )?;
    Ok(text)
}

#[test]
fn cells_that_lead_into_a_cycle_are_found_in_slices(rt: HostRuntime) -> Result<(), Fail> {
    // A1, A2 and A3 are opened one after the other, and then A3 is found to wait for A2.
    let text = told_cycle(rt.alloc(), "A1")?;
    assert_eq!(rt; text.as_str(), "4: #CIRC! #CIRC! #CIRC! #CIRC! 8 7");
    let text = told_cycle(rt.alloc(), "B2")?;
    assert_eq!(rt; text.as_str(), "1: #CIRC! #CIRC! #CIRC! #CIRC! 8 7");
    Ok(())
}
