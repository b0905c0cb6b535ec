// Small sheets for the tests.
use formula_syntax::Edition;
use sheet_model::{Change, Sheet};
use sheet_refs::{Cell, cell_of};
use std::alloc::Global;
use std::test::Fail;

/// The cell with this name.
pub(crate) fn cell(name: &str) -> Result<Cell, Fail> {
    Ok(cell_of(name.as_bytes()).ok_or("no cell")?)
}

/// A sheet of two rows and four columns, with these fields in these cells.
pub(crate) fn sheet_of(alloc: Global, fields: &[(&str, &str)]) -> Result<Sheet, Fail> {
    let mut sheet = Sheet::blank(alloc, 2, 4, Edition::One)?;
    for (name, field) in fields {
        put(&mut sheet, name, field)?;
    }
    Ok(sheet)
}

// Puts a field into a cell.
fn put(sheet: &mut Sheet, name: &str, field: &str) -> Result<(), Fail> {
    let cell = cell(name)?;
    if field.len() > 8_192 || !sheet.holds(cell) || sheet.labels().length() == u32::MAX {
        return Err(Fail::from("a field that has no place"));
    }
    let Ok(content) = sheet.read(field) else {
        return Err(Fail::from("a field that is not read"));
    };
    let _ = sheet.put(Change { cell, content });
    Ok(())
}
