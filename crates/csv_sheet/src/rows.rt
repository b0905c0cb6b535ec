ghost use Rattle.std.specs.Prelude.{◌≡◌, ◌<◌, ◌≤◌, ◌+◌, ◌-◌};
ghost use Rattle.std.specs.Prelude.{◌*◌, ◌^◌, [], ◌∷◌, ◌++◌, length};
ghost use Rattle.std.specs.Prelude.{IfErr, IfOk, OnOk, Err, IsTrue, List, ℕ};
ghost use Rattle.csv.specs.Records.{fields_of};
ghost use Rattle.sheet_refs.specs.Sizes.{is_inside};
ghost use Rattle.csv_sheet.specs.Ahead.{AreNext, Begin, IsAhead, in_lists, text_fields};
ghost use Rattle.csv_sheet.specs.Filling.{HoldsRecords, IsNextPart, IsPartRefusal, PutsField, PutsPart};
ghost use Rattle.csv_sheet.specs.Filling.{IsFieldRefusal, IsRecordFor};
ghost use Rattle.sheet_model.specs.Sheets.{IsSheetSize, blank_sheet};
ghost use Rattle.csv_sheet.specs.Filling.{AreSizesFor, IsBlankFor, IsFilledWith, IsFillRefusal, IsRowRefusal};
ghost use Rattle.csv_sheet.specs.Lines.{IsPlain, line_fields};
ghost use Rattle.csv_sheet.specs.Records.{Rows, without_marks};

use crate::ahead::split_lines;
use crate::known::{Ahead, Known};
use crate::lines::{field_count, split_field, split_line, text_of};
use crate::reader::LineReader;
use crate::records::{read_text, reader_of, text_field};
use crate::refused::SheetRefused;
use csv::StringRecord;
use formula_syntax::Edition;
use sheet_model::{Change, Content, ContentRefused, Sheet};
use sheet_refs::{Cell, Memory, Sizes};
use std::alloc::Global;

// Puts what a field writes into a cell, by what is known of it ahead.
fn fill_cell(
    sheet: &mut Sheet,
    cell: Cell,
    field: &str,
    ahead: Option<Content>,
) -> Result<(), SheetRefused>
    requires inside { IsTrue (is_inside sheet.old.sizes cell) }
    requires short { length field.now ≤ 8192 }
    requires room { length sheet.old.labels < 2 ^ 32 - 1 }
    requires ahead { IsAhead sheet.old.edition field.now ahead }
    ensures put { OnOk result (PutsField field.now cell sheet.old sheet.new) }
    ensures why { IfErr result (IsFieldRefusal sheet.old.edition field.now cell) }
{
    match ahead {
        Some(content) => {
            let _ = sheet.put(Change { cell, content });
            Ok(())
        }
        None => read_cell(sheet, cell, field),
    }
}

// The same where nothing is known of it.
fn read_cell(sheet: &mut Sheet, cell: Cell, field: &str) -> Result<(), SheetRefused>
    requires inside { IsTrue (is_inside sheet.old.sizes cell) }
    requires short { length field.now ≤ 8192 }
    requires room { length sheet.old.labels < 2 ^ 32 - 1 }
    ensures put { OnOk result (PutsField field.now cell sheet.old sheet.new) }
    ensures why { IfErr result (IsFieldRefusal sheet.old.edition field.now cell) }
{
    match sheet.read(field) {
        Ok(content) => {
            let _ = sheet.put(Change { cell, content });
            Ok(())
        }
        Err(ContentRefused::TooDeep) => Err(SheetRefused::FormulaTooDeep { cell }),
        Err(ContentRefused::TooManyRefs) => Err(SheetRefused::TooManyRefs { cell }),
        Err(ContentRefused::Memory) => Err(SheetRefused::Memory),
    }
}

// Puts what the fields of a record write into a row, counted from 0.
fn fill_row(sheet: &mut Sheet, row: u32, fields: &StringRecord) -> Result<(), SheetRefused>
    requires { IsRecordFor sheet.old row (fields_of fields.now) }
    ensures filled { OnOk result ((rows : Rows) → length rows ≡ row
        → HoldsRecords rows sheet.old → HoldsRecords (rows ++ fields_of fields.now ∷ []) sheet.new) }
    ensures edition { OnOk result (sheet.new.edition ≡ sheet.old.edition) }
    ensures sizes { OnOk result (sheet.new.sizes ≡ sheet.old.sizes) }
    ensures few { OnOk result (length sheet.new.labels ≤ (row + 1) * sheet.old.sizes.cols) }
    ensures why { IfErr result (IsRowRefusal sheet.old.edition row (fields_of fields.now)) }
{
    for col in 0..fields.len() {
        let cell = Cell::new(row + 1, col as u32 + 1).unwrap();
        read_cell(sheet, cell, text_field(fields, col))?;
    }
    Ok(())
}

// The same of the fields of a line, of which the next of a list tell what is known ahead.
fn fill_line(
    sheet: &mut Sheet,
    row: u32,
    line: &[u8],
    known: &mut Known,
) -> Result<(), SheetRefused>
    requires short { length line.now ≤ 16777216 }
    requires record { IsRecordFor sheet.old row (line_fields [] line.now) }
    requires ahead { (behind : List (List ℕ))
        × AreNext sheet.old.edition known.old (line_fields [] line.now ++ behind) }
    ensures ahead { OnOk result ((behind : List (List ℕ))
        → AreNext sheet.old.edition known.old (line_fields [] line.now ++ behind)
        → AreNext sheet.old.edition known.new behind) }
    ensures filled { OnOk result ((rows : Rows) → length rows ≡ row
        → HoldsRecords rows sheet.old → HoldsRecords (rows ++ line_fields [] line.now ∷ []) sheet.new) }
    ensures edition { OnOk result (sheet.new.edition ≡ sheet.old.edition) }
    ensures sizes { OnOk result (sheet.new.sizes ≡ sheet.old.sizes) }
    ensures few { OnOk result (length sheet.new.labels ≤ (row + 1) * sheet.old.sizes.cols) }
    ensures why { IfErr result (IsRowRefusal sheet.old.edition row (line_fields [] line.now)) }
{
    let mut left = line;
    for col in 0..field_count(line) {
        let (field, behind) = split_field(left);
        let cell = Cell::new(row + 1, col as u32 + 1).unwrap();
        fill_cell(sheet, cell, text_of(field), known.next())?;
        left = behind;
    }
    Ok(())
}

/// A sheet of the right sizes, filled with what the fields of all records of a text write; where these are known to be
/// its lines, some fields may be read ahead.
pub(crate) fn fill<R: LineReader>(
    alloc: Global,
    edition: Edition,
    text: &[u8],
    plain: bool,
    sizes: Sizes,
    reader: &R,
) -> Result<Sheet, SheetRefused>
    requires ready { R.ready }
    requires short { length text.now ≤ 16777216 }
    requires no_marks { without_marks text.now ≡ text.now }
    requires plain { IsTrue plain → IsPlain text.now }
    requires sizes { AreSizesFor text.now sizes }
    ensures filled { IfOk result (IsFilledWith text.now edition) }
    ensures why { IfErr result (IsFillRefusal text.now edition) }
{
    if plain {
        return fill_lines(alloc, edition, text, sizes, reader);
    }
    let mut sheet = Sheet::blank(alloc, sizes.rows, sizes.cols, edition)?;
    match fill_records(alloc, text, &mut sheet) {
        Ok(()) => Ok(sheet),
        Err(refused) => Err(refused),
    }
}

// The same by cutting lines, where these are the records. While the blank sheet is made, and then while a part of the
// lines is put into it, the next part is read ahead.
fn fill_lines<R: LineReader>(
    alloc: Global,
    edition: Edition,
    text: &[u8],
    sizes: Sizes,
    reader: &R,
) -> Result<Sheet, SheetRefused>
    requires ready { R.ready }
    requires short { length text.now ≤ 16777216 }
    requires plain { IsPlain text.now }
    requires sizes { AreSizesFor text.now sizes }
    ensures filled { IfOk result (IsFilledWith text.now edition) }
    ensures why { IfErr result (IsFillRefusal text.now edition) }
{
    let (mut part, mut behind) = split_lines(text, reader.at_once().min(text.len()));
    let (known, blank) = reader.read_beside(
        alloc,
        edition,
        part,
        move || -> Result<Sheet, Memory>
            requires { IsSheetSize (record { rows = sizes.rows; cols = sizes.cols }) }
            ensures { IfOk result
                (λ sheet. sheet ≡ blank_sheet edition (record { rows = sizes.rows; cols = sizes.cols })) }
        { Sheet::blank(alloc, sizes.rows, sizes.cols, edition) },
    );
    let mut filled = (blank?, 0);
    let mut ahead = known?;
    while part.len() + behind.len() > 0 {
        let (sheet, row) = filled;
        let (next, rest) = split_lines(behind, reader.at_once().min(behind.len()));
        let (known, done) = reader.read_beside(
            alloc,
            edition,
            next,
            move || -> Result<(Sheet, u32), SheetRefused>
                requires { (length part.now ≤ 16777216)
                    × Begin sheet.edition (in_lists ahead.items) (text_fields part.now)
                    × IsNextPart part.now row sheet }
                ensures { IfOk result (PutsPart part.entry.now row sheet)
                    × IfErr result (IsPartRefusal part.entry.now row sheet) }
            { fill_part(alloc, sheet, row, part, ahead) },
        );
        filled = done?;
        ahead = known?;
        part = next;
        behind = rest;
    }
    Ok(filled.0)
}

// Puts what the fields of some lines write into the rows from this one on, counted from 0, by what is known of the
// first of them. Gives the sheet and the row behind them.
fn fill_part(
    alloc: Global,
    mut sheet: Sheet,
    mut row: u32,
    part: &[u8],
    ahead: Ahead,
) -> Result<(Sheet, u32), SheetRefused>
    requires short { length part.now ≤ 16777216 }
    requires ahead { Begin sheet.edition (in_lists ahead.items) (text_fields part.now) }
    requires next { IsNextPart part.now row sheet }
    ensures put { IfOk result (PutsPart part.now row sheet) }
    ensures why { IfErr result (IsPartRefusal part.now row sheet) }
{
    let mut known = Known::new(alloc, ahead);
    let mut left = part;
    while !left.is_empty() {
        let (line, behind) = split_line(left);
        if !line.is_empty() {
            fill_line(&mut sheet, row, line, &mut known)?;
            row += 1;
        }
        left = behind;
    }
    Ok((sheet, row))
}

// Fills a blank sheet with the records of any text, by reading each.
fn fill_records(alloc: Global, text: &[u8], sheet: &mut Sheet) -> Result<(), SheetRefused>
    requires no_marks { without_marks text.now ≡ text.now }
    requires blank { IsBlankFor text.now sheet.old }
    ensures filled { OnOk result (IsFilledWith text.now sheet.old.edition sheet.new) }
    ensures why { IfErr result (IsFillRefusal text.now sheet.old.edition) }
{
    let mut reader = reader_of(alloc, text);
    let mut fields = StringRecord::new(alloc);
    for row in 0..sheet.rows() {
        if !read_text(&mut reader, &mut fields)? {
            unreachable!();
        }
        fill_row(sheet, row, &fields)?;
    }
    Ok(())
}
