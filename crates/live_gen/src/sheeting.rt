ghost use Rattle.std.specs.Prelude.{◌≡◌, ◌<◌, ◌≤◌, [], IfOk, OnOk, length, string_bytes};
ghost use Rattle.formula_syntax.specs.declared.edition.Edition.TheVariants.{One};
ghost use Rattle.sheet_model.specs.Fields.{IsLabelField};
ghost use Rattle.sheet_model.specs.Sheets.{IsSheet};
ghost use Rattle.live_gen.specs.Draws.{draws_after};
ghost use Rattle.live_gen.specs.Filling.{FillsRow, PutsField};
ghost use Rattle.live_gen.specs.Rows.{IsGeneratedSheet, chain_text, field_text, generated_sizes};

use crate::column::Column;
use crate::draws::Draws;
use formula_syntax::Edition;
use sheet_model::{Change, ContentRefused, Sheet};
use sheet_refs::{Cell, Memory};
use std::alloc::{AllocError, Global};

// The sum of column A so far, from the row above.
fn chain(alloc: Global, row: u32) -> Result<String, AllocError>
    requires { 1 ≤ row }
    ensures { IfOk result (λ text. string_bytes text ≡ chain_text row) }
{
    if row == 1 {
        return String::from_str(alloc, "=A1");
    }
    let above = row - 1;
    format!(in alloc; "=C{above}+A{row}")
}

// What a field writes.
fn field(alloc: Global, column: Column, row: u32, drawn: u32) -> Result<String, AllocError>
    requires { 1 ≤ row }
    ensures { IfOk result (λ text. string_bytes text ≡ field_text column row drawn) }
{
    match column {
        Column::A => format!(in alloc; "{drawn}"),
        Column::B => format!(in alloc; "=SUM($A$1:A{row})"),
        Column::C => chain(alloc, row),
        Column::D => format!(in alloc; "=IF(A{row}>500;B{row};C{row})"),
        Column::E => format!(in alloc; "=A{row}*$A$1"),
        Column::F => format!(in alloc; "=SUM(A{row}:$A$1000)"),
        Column::G => format!(in alloc; "=MOD(B{row};7)"),
    }
}

// Puts what a short text that is no label writes into a cell of a row and a column, both counted from 0.
fn put_field(sheet: &mut Sheet, row: u32, col: u32, text: &str) -> Result<(), Memory>
    requires row { row < 1000 }
    requires col { col < 7 }
    requires edition { sheet.old.edition ≡ One }
    requires sizes { sheet.old.sizes ≡ generated_sizes }
    requires labels { sheet.old.labels ≡ [] }
    requires short { length text.now ≤ 64 }
    requires plain { ¬ IsLabelField text.now }
    ensures { OnOk result (PutsField row col text.now sheet.old sheet.new) }
{
    match sheet.read(text) {
        Ok(content) => {
            let cell = Cell::new(row + 1, col + 1).unwrap();
            let _ = sheet.put(Change { cell, content });
            Ok(())
        }
        Err(ContentRefused::TooDeep) => unreachable!(),
        Err(ContentRefused::TooManyRefs) => unreachable!(),
        Err(ContentRefused::Memory) => Err(Memory),
    }
}

// Fills a row, counted from 0, for which this number was drawn.
fn fill_row(alloc: Global, sheet: &mut Sheet, row: u32, drawn: u32) -> Result<(), Memory>
    requires row { row < 1000 }
    requires drawn { drawn < 1000 }
    requires edition { sheet.old.edition ≡ One }
    requires sizes { sheet.old.sizes ≡ generated_sizes }
    requires labels { sheet.old.labels ≡ [] }
    requires kept { IsSheet sheet.old }
    ensures { OnOk result (FillsRow row drawn 7 sheet.old sheet.new) }
{
    for col in 0..Column::ALL.len() {
        let text = field(alloc, Column::ALL[col], row + 1, drawn)?;
        put_field(sheet, row, col as u32, text.as_str())?;
    }
    Ok(())
}

/// Draws the sheet: the numbers of column A, row by row, with the formulas beside them.
pub(crate) fn draw_sheet(alloc: Global, draws: &mut Draws) -> Result<Sheet, Memory>
    requires { draws.old.made ≡ 0 }
    ensures sheet { IfOk result (IsGeneratedSheet draws.old.number) }
    ensures drawn { OnOk result (draws.new ≡ draws_after draws.old.number 1000) }
{
    let mut sheet = Sheet::blank(alloc, 1_000, 7, Edition::One)?;
    for row in 0..1_000 {
        let drawn = draws.next(1_000);
        fill_row(alloc, &mut sheet, row, drawn)?;
    }
    Ok(sheet)
}
