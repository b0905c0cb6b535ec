ghost use Rattle.std.specs.Prelude.{◌≡◌, ◌≢◌, ◌≤◌, ◌↔◌, length, Result, Err};
ghost use Rattle.sheet_model.specs.Sheets.{SheetValue};
ghost use Rattle.csv_sheet.specs.Results.{IsRecordsResult, IsSheetResult};
ghost use Rattle.csv_sheet.specs.Records.{without_marks};
ghost use Rattle.csv_sheet.specs.declared.refused.SheetRefused.{SheetRefused as Refusal};
ghost use Rattle.csv_sheet.specs.declared.refused.SheetRefused.TheVariants as refused;

use crate::extent::measure;
use crate::heading::read_heading;
use crate::reader::{Alone, InThreads, LineReader};
use crate::records::behind_marks;
use crate::refused::SheetRefused;
use crate::rows::fill;
use formula_syntax::Edition;
use sheet_model::Sheet;
use sheet_refs::{Cell, Sizes};
use std::alloc::Global;
use std::thread::Threads;

// The sheet of a text, or the first cause why it has none; some of its fields may be read ahead.
fn load_text<R: LineReader>(alloc: Global, text: &[u8], reader: &R) -> Result<Sheet, SheetRefused>
    requires ready { R.ready }
    requires short { length text.now ≤ 16777216 }
    ensures { result ≢ Err refused.Memory → IsSheetResult text.now result }
{
    let Some(heading) = read_heading(behind_marks(text)) else {
        return Err(SheetRefused::UnknownEdition);
    };
    load_records(alloc, heading.edition, heading.records, reader)
}

// The sheet of the text of records in an edition, or the first cause why it has none.
fn load_records<R: LineReader>(
    alloc: Global,
    edition: Edition,
    records: &[u8],
    reader: &R,
) -> Result<Sheet, SheetRefused>
    requires ready { R.ready }
    requires short { length records.now ≤ 16777216 }
    requires no_marks { without_marks records.now ≡ records.now }
    ensures { result ≢ Err refused.Memory → IsRecordsResult edition records.now result }
{
    let lines = reader.count(records);
    let extent = measure(alloc, records, lines)?;
    if let Some(row) = extent.not_text {
        return Err(SheetRefused::NotUtf8 { number: row + 1 });
    }
    if extent.is_too_large() {
        return Err(SheetRefused::TooManyCells {
            rows: u64::from(extent.rows),
            cols: extent.cols as u64,
        });
    }
    if let Some((row, col)) = extent.long {
        return Err(SheetRefused::FieldTooLong {
            cell: Cell::new(row + 1, col as u32 + 1).unwrap(),
        });
    }
    let sizes = Sizes {
        rows: extent.rows,
        cols: extent.cols as u32,
    };
    fill(alloc, edition, records, lines.is_some(), sizes, reader)
}

/// Reads a sheet of a text of at most 16,777,216 bytes: CSV with no header row, records of any lengths and
/// the other settings of the kit's `csv`, once the byte order marks at its front are taken off. A first line
/// `#edition 1` or `#edition 2`, ended by LF, CR LF or the end of the text, names the edition of the functions
/// of its formulas and is taken off, with the byte order marks behind it; a text without one has edition 1. A
/// record gives a row; a shorter one is filled with empty cells; a wholly empty line is none.
///
/// Refuses, by the first of these causes: another first line where the text begins with `#edition `; a field
/// that isn't UTF-8; more than 1,048,576 cells or 16,384 columns; a field of more than 8,192 bytes; a formula
/// that `read_content` refuses. Memory may come before any. It reads the text twice, first for
/// the sizes, or three times where a line without quotes is longer than a field may be, in time proportional to its
/// length and to the number of cells.
pub fn load(alloc: Global, text: &[u8]) -> Result<Sheet, SheetRefused>
    requires { length text.now ≤ 16777216 }
    ensures result { result ≢ Err refused.Memory → IsSheetResult text.now result }
    ensures exact { result ≢ Err refused.Memory
        → (answer : Result SheetValue Refusal) → result ≡ answer ↔ IsSheetResult text.now answer }
{
    load_text(alloc, text, &Alone)
}

/// The same by several threads, of which as many work as there are processors, where the text has 65,536 bytes or more:
/// they count its lines, and where it is all ASCII and has no quote, they read what the fields of one part of it write,
/// up to 131,072 bytes each, while this one puts the part before it into the sheet and then reads up to 65,536 bytes
/// too. It takes 24 bytes more for each field of two such parts. Where a thread can't be made, this one does its part.
pub fn load_in_threads<R: Threads + Sync>(
    rt: &R,
    alloc: Global,
    text: &[u8],
) -> Result<Sheet, SheetRefused>
    requires { length text.now ≤ 16777216 }
    ensures result { result ≢ Err refused.Memory → IsSheetResult text.now result }
    ensures exact { result ≢ Err refused.Memory
        → (answer : Result SheetValue Refusal) → result ≡ answer ↔ IsSheetResult text.now answer }
{
    load_text(alloc, text, &InThreads::new(rt))
}
