ghost use Rattle.std.specs.Prelude.{◌≡◌, ◌<◌, ℕ, [], ◌∷◌, ◌++◌};
ghost use Rattle.std.specs.Prelude.{List, Some, length, slice_index_or};
ghost use Rattle.std.specs.Prelude.{IfOk, MatchBool};
ghost use Rattle.csv.specs.Reading.{AreRecords, default_config};
ghost use Rattle.csv.specs.Records.{fields_of};
ghost use Rattle.csv.specs.declared.parser.State.TheVariants.{StartRecord};
ghost use Rattle.csv_sheet.specs.Reading.{HasReadRecords};
ghost use Rattle.csv_sheet.specs.Records.{Rows, without_marks};

use csv::{ByteRecord, Reader, ReaderBuilder, StringRecord};
use sheet_refs::Memory;
use std::alloc::Global;

/// The text without the byte order marks at its front.
pub(crate) fn behind_marks(text: &[u8]) -> &[u8]
    ensures { result.now ≡ without_marks text.now }
{
    let mut rest = text;
    while let Some(behind) = rest.strip_prefix(b"\xEF\xBB\xBF") {
        rest = behind;
    }
    rest
}

/// A reader of the records of a text that has no byte order mark at its front.
pub(crate) fn reader_of(alloc: Global, text: &[u8]) -> Reader<&[u8]>
    requires { without_marks text.now ≡ text.now }
    ensures { HasReadRecords (λ s. Some s.now) text.now [] result }
{
    ReaderBuilder::new()
        .has_headers(false)
        .flexible(true)
        .from_reader(alloc, text)
}

/// Reads the next record; answers whether there was one.
pub(crate) fn read_next(reader: &mut Reader<&[u8]>, fields: &mut ByteRecord) -> Result<bool, Memory>
    ensures { IfOk result (λ found. (text : List ℕ) (rows : Rows)
        → HasReadRecords (λ s. Some s.now) text rows reader.old
        → MatchBool found
        (HasReadRecords (λ s. Some s.now) text (rows ++ fields_of fields.new ∷ []) reader.new)
        (AreRecords default_config StartRecord text rows)) }
{
    // Over a text in memory a reader fails for want of memory alone.
    let Ok(found) = reader.read_byte_record(fields) else {
        return Err(Memory);
    };
    Ok(found)
}

/// The same of records that are text, each of which is looked at once for all of its fields.
pub(crate) fn read_text(
    reader: &mut Reader<&[u8]>,
    fields: &mut StringRecord,
) -> Result<bool, Memory>
    ensures { IfOk result (λ found. (text : List ℕ) (rows : Rows)
        → HasReadRecords (λ s. Some s.now) text rows reader.old
        → MatchBool found
        (HasReadRecords (λ s. Some s.now) text (rows ++ fields_of fields.new ∷ []) reader.new)
        (AreRecords default_config StartRecord text rows)) }
{
    // Over a text in memory whose records are text a reader fails for want of memory alone.
    let Ok(found) = reader.read_record(fields) else {
        return Err(Memory);
    };
    Ok(found)
}

/// A field of a record, counted from 0.
pub(crate) fn field(fields: &ByteRecord, col: usize) -> &[u8]
    requires { col < length (fields_of fields.now) }
    ensures { result.now ≡ slice_index_or (fields_of fields.now) col [] }
{
    fields.get(col).unwrap()
}

/// A field of a record that is text, counted from 0.
pub(crate) fn text_field(fields: &StringRecord, col: usize) -> &str
    requires { col < length (fields_of fields.now) }
    ensures { result.now ≡ slice_index_or (fields_of fields.now) col [] }
{
    fields.get(col).unwrap()
}
