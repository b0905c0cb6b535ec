use formula_syntax::Edition;
use sheet_model::{Change, Sheet};
use sheet_refs::{Cell, Range, cell_of, range_of};
use std::alloc::Global;
use std::test::Fail;

/// The cell of a name.
pub(crate) fn cell(name: &str) -> Result<Cell, Fail> {
    Ok(cell_of(name.as_bytes()).ok_or("no cell")?)
}

/// The range of a name.
pub(crate) fn range(name: &str) -> Result<Range, Fail> {
    Ok(range_of(name.as_bytes()).ok_or("no range")?)
}

/// Puts what a field says into a cell.
pub(crate) fn put(sheet: &mut Sheet, cell: Cell, field: &str) -> Result<(), Fail> {
    if field.len() > 8_192 || !sheet.holds(cell) || sheet.labels().length() == u32::MAX {
        return Err(Fail::from("a field that has no place"));
    }
    let Ok(content) = sheet.read(field) else {
        return Err(Fail::from("a field that is not read"));
    };
    let _ = sheet.put(Change { cell, content });
    Ok(())
}

// Puts fields into their cells.
fn fill(sheet: &mut Sheet, fields: &[(&str, &str)]) -> Result<(), Fail> {
    for (name, field) in fields {
        put(sheet, cell(name)?, field)?;
    }
    Ok(())
}

/// A sheet of so many rows and columns, with these fields.
pub(crate) fn sheet_of(
    alloc: Global,
    rows: u32,
    cols: u32,
    fields: &[(&str, &str)],
) -> Result<Sheet, Fail> {
    if rows > 1_000 || cols > 100 || (rows == 0) != (cols == 0) {
        return Err(Fail::from("a sheet of no such size"));
    }
    let mut sheet = Sheet::blank(alloc, rows, cols, Edition::One)?;
    fill(&mut sheet, fields)?;
    Ok(sheet)
}

/// A sheet of two rows and two columns. B1 adds one to A1, and B2 adds A2 and B1; the values are 1, 2, 2 and 4.
pub(crate) fn four_cells(alloc: Global) -> Result<Sheet, Fail> {
    let fields = [("A1", "1"), ("B1", "=A1+1"), ("A2", "2"), ("B2", "=A2+B1")];
    sheet_of(alloc, 2, 2, &fields)
}
