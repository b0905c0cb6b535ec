// What no clause says: that edits are prepared where there is memory, and touch the cells that a person expects. The
// expected cells were worked out by hand.
ghost use Rattle.std.specs.Prelude.{ℕ, IfOk};
ghost use Rattle.sheet_model.specs.Edits.{HaveLabels};

use crate::graphs::{cell, filled};
use edit_log::{Applied, Book, PrepareRefused};
use formula_syntax::Edition;
use graph_walk::Graph;
use plain_graph::PlainGraph;
use sheet_model::{Change, Content, Edit, Sheet};
use sheet_refs::Cell;
use std::alloc::Global;
use std::fmt::Write;
use std::test::Fail;

// A book of a sheet of three rows and columns with these fields in its cells.
fn book(alloc: Global, fields: &[(&str, &str)]) -> Result<Book<PlainGraph>, Fail> {
    let blank = Sheet::blank(alloc, 3, 3, Edition::One)?;
    let sheet = filled(blank, fields)?;
    Ok(Book::open(alloc, sheet, PlainGraph::new(alloc))?)
}

// An edit by which cells are to hold TRUE.
fn made_true(alloc: Global, names: &[&str]) -> Result<Edit, Fail>
    ensures { IfOk result (λ edit. (labels : ℕ) → HaveLabels labels edit) }
{
    let mut changes = Vec::new(alloc);
    for name in names {
        let cell = cell(*name)?;
        let content = Content::Truth(true);
        changes.push(Change { cell, content })?;
    }
    match Edit::of(changes) {
        Some(edit) => Ok(edit),
        None => Err(Fail::from("no edit")),
    }
}

// Adds a line: the number of an edit, and the names of the cells that it touches.
fn add_line(lines: &mut String, applied: &Applied) -> Result<(), Fail> {
    write!(lines, "{}", applied.number)?;
    for cell in &applied.touched {
        write!(lines, " {cell}")?;
    }
    lines.push('\n')?;
    Ok(())
}

// Makes an edit, and adds its line.
fn touch<G: Graph>(
    alloc: Global,
    book: &mut Book<G>,
    names: &[&str],
    lines: &mut String,
) -> Result<(), Fail> {
    let edit = made_true(alloc, names)?;
    let prepared = book.prepare(2, edit)?;
    add_line(lines, &book.apply(prepared))
}

// Makes such edits one after the other, and adds their lines.
fn touch_all<G: Graph>(
    alloc: Global,
    book: &mut Book<G>,
    edits: &[&[&str]],
    lines: &mut String,
) -> Result<(), Fail> {
    for names in edits {
        touch(alloc, book, *names, lines)?;
    }
    Ok(())
}

// Adds how long a book says that its log is, how many entries the log has, and whether a cell holds TRUE.
fn add_end<G: Graph>(lines: &mut String, book: &Book<G>, name: &str) -> Result<(), Fail> {
    let is_true = matches!(book.sheet().content(cell(name)?), Content::Truth(true));
    write!(lines, "{} {} {is_true}", book.length(), book.log().len())?;
    Ok(())
}

// Makes such edits, and tells of each, and of the end and of a cell then.
fn tell<G: Graph>(
    alloc: Global,
    book: &mut Book<G>,
    edits: &[&[&str]],
    name: &str,
) -> Result<String, Fail> {
    let mut lines = String::new(alloc);
    touch_all(alloc, book, edits, &mut lines)?;
    add_end(&mut lines, book, name)?;
    Ok(lines)
}

// The same in a book of a sheet with these fields.
fn told(
    alloc: Global,
    fields: &[(&str, &str)],
    edits: &[&[&str]],
    name: &str,
) -> Result<String, Fail> {
    let mut book = book(alloc, fields)?;
    tell(alloc, &mut book, edits, name)
}

#[test]
fn edits_touch_the_dependents_of_their_cells_row_by_row(rt: HostRuntime) -> Result<(), Fail> {
    let found = told(
        rt.alloc(),
        &[("A1", "=B1"), ("C3", "=A2"), ("B3", "=A1+C3")],
        &[&["B1", "A2"], &["A2", "A1"]],
        "A2",
    )?;
    let lines = "1 A1 B1 A2 B3 C3\n2 A1 A2 B3 C3\n2 2 true";
    assert_eq!(rt; found.as_str(), lines);
    Ok(())
}

// Empties a cell of a book, and tells whether that was prepared.
fn clears<G: Graph>(alloc: Global, book: &mut Book<G>, cell: Cell) -> Result<u64, PrepareRefused> {
    let content = Content::Empty;
    let edit = Edit::one(alloc, Change { cell, content })?;
    let prepared = book.prepare(0, edit)?;
    let applied = book.apply(prepared);
    Ok(applied.number)
}

// Makes as many edits of a book as its log takes.
fn clear_all<G: Graph>(
    alloc: Global,
    book: &mut Book<G>,
    cell: Cell,
) -> Result<(), PrepareRefused> {
    for _ in 0..1_048_576 {
        clears(alloc, book, cell)?;
    }
    Ok(())
}

// Fills the log of a book of one cell; why that cell is then not emptied, and why one outside the sheet isn't.
fn refused_when_full<G: Graph>(
    alloc: Global,
    book: &mut Book<G>,
    first: Cell,
    outside: Cell,
) -> Result<(Option<PrepareRefused>, Option<PrepareRefused>), Fail> {
    clear_all(alloc, book, first)?;
    let full = clears(alloc, book, first).err();
    let past = clears(alloc, book, outside).err();
    Ok((full, past))
}

#[test]
fn a_log_takes_a_million_entries(rt: HostRuntime) -> Result<(), Fail> {
    let (first, outside) = (cell("A1")?, cell("A2")?);
    let sheet = Sheet::blank(rt.alloc(), 1, 1, Edition::One)?;
    let mut book = Book::open(rt.alloc(), sheet, PlainGraph::new(rt.alloc()))?;
    let found = refused_when_full(rt.alloc(), &mut book, first, outside)?;
    let length = 1_048_576;
    assert_eq!(rt;
        found,
        (
            Some(PrepareRefused::LogFull { length }),
            Some(PrepareRefused::OutOfSheet { cell: outside }),
        )
    );
    Ok(())
}
