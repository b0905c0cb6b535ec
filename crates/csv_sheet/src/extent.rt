ghost use Rattle.std.specs.Prelude.{◌≡◌, ◌↔◌, ◌<◌, ◌≤◌, ◌^◌, ◌-◌, ◌*◌};
ghost use Rattle.std.specs.Prelude.{◌+◌, ◌⊎◌, [], ◌∷◌, ◌++◌};
ghost use Rattle.std.specs.Prelude.{length, IfOk, IfSome, IsTrue, MatchOption};
ghost use Rattle.csv.specs.Reading.{AreRecords, default_config};
ghost use Rattle.csv.specs.Records.{fields_of, AllText};
ghost use Rattle.csv.specs.declared.parser.State.TheVariants.{StartRecord};
ghost use Rattle.csv_sheet.specs.Lines.{IsCountOf};
ghost use Rattle.csv_sheet.specs.Reading.{Measures, AreShort, IsFirstLong};
ghost use Rattle.csv_sheet.specs.Records.{Rows, cell_there, without_marks};
ghost use Rattle.csv_sheet.specs.Results.{AreText, IsFirstNotText, IsFirstField, NoField, IsLong};

use crate::lines::Lines;
use crate::records::{field, read_next, reader_of};
use csv::ByteRecord;
use formula_syntax::MAX_FIELD;
use sheet_refs::{MAX_CELLS, MAX_COLS, Memory};
use std::alloc::Global;

/// What is known of records before any of their fields is kept.
#[derive(Clone, Copy)]
pub(crate) struct Extent {
    /// How many they are.
    pub(crate) rows: u32,
    /// How many fields the longest has.
    pub(crate) cols: usize,
    /// The first of them, counted from 0, that isn't text.
    pub(crate) not_text: Option<u32>,
    /// The row and the column, counted from 0, of the first field that is too long.
    pub(crate) long: Option<(u32, usize)>,
}

// Whether all fields of a record are text.
fn is_text(fields: &ByteRecord) -> bool
    ensures { IsTrue result ↔ AllText (fields_of fields.now) }
{
    if fields.as_slice().is_ascii() {
        return true;
    }
    for col in 0..fields.len() {
        let Ok(_) = str::from_utf8(field(fields, col)) else {
            return false;
        };
    }
    true
}

// The column of the first field of a record that is too long.
fn first_long(fields: &ByteRecord) -> Option<usize>
    ensures { MatchOption result (AreShort (fields_of fields.now))
        (IsFirstLong (fields_of fields.now)) }
{
    if fields.as_slice().len() <= MAX_FIELD {
        return None;
    }
    for col in 0..fields.len() {
        if field(fields, col).len() > MAX_FIELD {
            return Some(col);
        }
    }
    None
}

impl Extent {
    // The first record that isn't text, with one record more.
    fn not_text_with(&self, fields: &ByteRecord) -> Option<u32>
        ensures { (rows : Rows) → Measures rows self.now
            → MatchOption result (AreText (rows ++ fields_of fields.now ∷ []))
            (λ row. IsFirstNotText (rows ++ fields_of fields.now ∷ []) (row + 1)) }
    {
        match self.not_text {
            Some(row) => Some(row),
            None if is_text(fields) => None,
            None => Some(self.rows),
        }
    }

    // The first field that is too long, with one record more.
    fn long_with(&self, fields: &ByteRecord) -> Option<(u32, usize)>
        ensures { (rows : Rows) → Measures rows self.now
            → MatchOption result (NoField IsLong (rows ++ fields_of fields.now ∷ []))
            (λ place. IsFirstField IsLong (rows ++ fields_of fields.now ∷ [])
            (cell_there place.0 place.1)) }
    {
        match self.long {
            Some(place) => Some(place),
            None => {
                let col = first_long(fields)?;
                Some((self.rows, col))
            }
        }
    }

    // The extent of one record more.
    fn with(&self, fields: &ByteRecord) -> Extent
        requires { self.now.rows < 2 ^ 32 - 1 }
        ensures more { (rows : Rows) → Measures rows self.now
            → Measures (rows ++ fields_of fields.now ∷ []) result }
        ensures rows { result.rows ≡ self.now.rows + 1 }
    {
        Extent {
            rows: self.rows + 1,
            cols: self.cols.max(fields.len()),
            not_text: self.not_text_with(fields),
            long: self.long_with(fields),
        }
    }

    /// Whether the records have more than 1,048,576 cells or more than 16,384 columns.
    pub(crate) fn is_too_large(&self) -> bool
        ensures { IsTrue result
            ↔ ((1048576 < self.now.rows * self.now.cols) ⊎ (16384 < self.now.cols)) }
    {
        self.cols > MAX_COLS as usize || u64::from(self.rows) * self.cols as u64 > MAX_CELLS
    }
}

/// The extent of all records of a text, in time proportional to its length; none of the fields is kept. Where these
/// are its lines, which were counted, and none of them is longer than a field may be, that count tells it.
pub(crate) fn measure(alloc: Global, text: &[u8], lines: Option<Lines>) -> Result<Extent, Memory>
    requires no_marks { without_marks text.now ≡ text.now }
    requires short { length text.now ≤ 16777216 }
    requires lines { IfSome lines (λ l. IsCountOf text.now l) }
    ensures { IfOk result (λ extent. (rows : Rows)
        × AreRecords default_config StartRecord text.now rows × Measures rows extent) }
{
    match lines {
        Some(lines) if lines.short => Ok(Extent {
            rows: lines.rows,
            cols: lines.cols,
            not_text: None,
            long: None,
        }),
        _ => measure_records(alloc, text),
    }
}

// The same, by reading each record.
fn measure_records(alloc: Global, text: &[u8]) -> Result<Extent, Memory>
    requires no_marks { without_marks text.now ≡ text.now }
    requires short { length text.now ≤ 16777216 }
    ensures { IfOk result (λ extent. (rows : Rows)
        × AreRecords default_config StartRecord text.now rows × Measures rows extent) }
{
    let mut reader = reader_of(alloc, text);
    let mut fields = ByteRecord::new(alloc);
    let mut extent = Extent {
        rows: 0,
        cols: 0,
        not_text: None,
        long: None,
    };
    for _ in 0..text.len() + 1 {
        if !read_next(&mut reader, &mut fields)? {
            return Ok(extent);
        }
        extent = extent.with(&fields);
    }
    // A text has no more records than bytes, so this isn't reached.
    Err(Memory)
}
