// What no clause says: which cells a person sees on a cycle as a sheet is edited. They were worked out by hand.
ghost use Rattle.std.specs.Bool.{OnTrue};
ghost use Rattle.std.specs.Prelude.{ℕ, IfOk};
ghost use Rattle.sheet_model.specs.Edits.{HaveLabels};
ghost use Rattle.sheet_model.specs.Sheets.{HasLabel, IsWritten, content_value};

use crate::graphs::{cell, filled};
use edit_log::Book;
use formula_syntax::Edition;
use graph_walk::Graph;
use plain_graph::PlainGraph;
use sheet_model::{Change, Content, Edit, Sheet};
use sheet_refs::{Cell, Sizes};
use std::alloc::Global;
use std::fmt::Write;
use std::test::Fail;

// Whether a content is a number or a formula.
fn is_plain(content: &Content) -> bool
    ensures { OnTrue result ((labels : ℕ) → HasLabel labels (content_value content.now)) }
{
    matches!(content, Content::Number(_) | Content::Formula(_))
}

// What a field says, which is no label.
fn content_of(sheet: &mut Sheet, field: &str) -> Result<Content, Fail>
    ensures label { IfOk result
        (λ content. (labels : ℕ) → HasLabel labels (content_value content)) }
    ensures written { IfOk result (λ content. IsWritten (content_value content)) }
{
    if field.len() > 8_192 || sheet.labels().length() == u32::MAX {
        return Err(Fail::from("a field that has no place"));
    }
    let Ok(content) = sheet.read(field) else {
        return Err(Fail::from("a field that is not read"));
    };
    if !is_plain(&content) {
        return Err(Fail::from("a field that is neither a number nor a formula"));
    }
    Ok(content)
}

// An edit by which cells are to hold what fields say.
fn sets(alloc: Global, sheet: &mut Sheet, fields: &[(&str, &str)]) -> Result<Edit, Fail>
    ensures { IfOk result (λ edit. (labels : ℕ) → HaveLabels labels edit) }
{
    let mut changes = Vec::new(alloc);
    for (name, field) in fields {
        let cell = cell(name)?;
        let content = content_of(sheet, field)?;
        changes.push(Change { cell, content })?;
    }
    match Edit::of(changes) {
        Some(edit) => Ok(edit),
        None => Err(Fail::from("no edit")),
    }
}

// Adds a line: the cells of a sheet of so many cells that are on a cycle.
fn add_line<G: Graph>(lines: &mut String, book: &mut Book<G>, sizes: Sizes) -> Result<(), Fail> {
    for row in 1..=sizes.rows {
        for col in 1..=sizes.cols {
            let cell = Cell::new(row, col).ok_or("no cell")?;
            if book.on_cycle(cell)? {
                write!(lines, "{cell} ")?;
            }
        }
    }
    lines.push('\n')?;
    Ok(())
}

// The cells on cycles of a sheet of three rows and columns with these fields, and after each edit.
fn told(alloc: Global, fields: &[(&str, &str)], edits: &[&[(&str, &str)]]) -> Result<String, Fail> {
    let sizes = Sizes { rows: 3, cols: 3 };
    let mut scratch = Sheet::blank(alloc, 1, 1, Edition::One)?;
    let sheet = filled(Sheet::blank(alloc, 3, 3, Edition::One)?, fields)?;
    let mut book = Book::open(alloc, sheet, PlainGraph::new(alloc))?;
    let mut lines = String::new(alloc);
    add_line(&mut lines, &mut book, sizes)?;
    for edit in edits {
        let edit = sets(alloc, &mut scratch, edit)?;
        let prepared = book.prepare(0, edit)?;
        let _ = book.apply(prepared);
        add_line(&mut lines, &mut book, sizes)?;
    }
    Ok(lines)
}

#[test]
fn edits_put_cells_onto_cycles_and_take_them_off(rt: HostRuntime) -> Result<(), Fail> {
    let found = told(
        rt.alloc(),
        &[
            ("A1", "=B1"),
            ("B1", "=C1"),
            ("B2", "=A1+C3"),
            ("C3", "=SUM(A3:B3)"),
        ],
        &[
            // a cycle of three cells, on which B2 depends
            &[("C1", "=A1")],
            // a second one beside it
            &[("A3", "=B2"), ("C2", "=1")],
            // the first is taken apart at a cell that another formula names
            &[("B1", "7")],
            // a cell that names itself
            &[("A2", "=A2")],
            // nothing but a number
            &[("B3", "5")],
            // the others go in one edit, which puts two cells onto a new one
            &[("A2", "=C2"), ("C2", "=A2"), ("A3", "1")],
            &[("C2", "=B1")],
        ],
    )?;
    let lines =
        "\nA1 B1 C1 \nA1 B1 C1 B2 A3 C3 \nB2 A3 C3 \nA2 B2 A3 C3 \nA2 B2 A3 C3 \nA2 C2 \n\n";
    assert_eq!(rt; found.as_str(), lines);
    Ok(())
}
