// The records of texts without quotes, which are their lines: cut without a record in memory.
ghost use Rattle.std.specs.Prelude.{◌≡◌, ◌<◌, ◌≤◌, ◌+◌, ◌-◌, ◌^◌, ◌++◌};
ghost use Rattle.std.specs.Prelude.{[], length, take, drop, count_by, IfSome, IsTrue, IsUtf8};
ghost use Rattle.std.specs.List.{prefix_len};
ghost use Rattle.std.specs.Str.{IsAscii};
ghost use Rattle.csv_sheet.specs.Lines.{AreCounted, IsCountOf, IsPlain, goes_on, goes_on_field};
ghost use Rattle.csv_sheet.specs.Lines.{is_comma, line_fields, rows_in};
ghost use Rattle.csv_sheet.specs.Records.{Rows};

use formula_syntax::MAX_FIELD;
use memchr::{memchr, memchr2};

/// What is counted of lines.
#[derive(Clone, Copy)]
pub(crate) struct Lines {
    /// How many of them have a byte.
    pub(crate) rows: u32,
    /// How many fields the longest has.
    pub(crate) cols: usize,
    /// Whether each is known to be no longer than a field may be.
    pub(crate) short: bool,
}

/// How many bytes the line at the front has.
pub(crate) fn line_length(text: &[u8]) -> usize
    ensures count { result ≡ prefix_len goes_on text.now }
    ensures within { result ≤ length text.now }
{
    memchr2(b'\r', b'\n', text).unwrap_or(text.len())
}

/// The line at the front, and what is behind its end.
pub(crate) fn split_line(text: &[u8]) -> (&[u8], &[u8])
    ensures line { result.0.now ≡ take (prefix_len goes_on text.now) text.now }
    ensures behind { result.1.now ≡ drop 1 (drop (prefix_len goes_on text.now) text.now) }
{
    let (line, behind) = text.split_at(line_length(text));
    (line, behind_first(behind))
}

// How many commas a line has.
fn comma_count(line: &[u8]) -> usize
    ensures { result ≡ count_by is_comma line.now }
{
    line.iter().filter(|byte| **byte == b',').count()
}

/// How many fields a line has.
pub(crate) fn field_count(line: &[u8]) -> usize
    requires { length line.now ≤ 16777216 }
    ensures { result ≡ length (line_fields [] line.now) }
{
    comma_count(line) + 1
}

// How many bytes the first field of a line has.
fn field_length(line: &[u8]) -> usize
    ensures count { result ≡ prefix_len goes_on_field line.now }
    ensures within { result ≤ length line.now }
{
    memchr(b',', line).unwrap_or(line.len())
}

/// The first field of a line, and what is behind the comma that ends it.
pub(crate) fn split_field(line: &[u8]) -> (&[u8], &[u8])
    ensures field { result.0.now ≡ take (prefix_len goes_on_field line.now) line.now }
    ensures behind { result.1.now ≡ drop 1 (drop (prefix_len goes_on_field line.now) line.now) }
{
    let (field, behind) = line.split_at(field_length(line));
    (field, behind_first(behind))
}

// What is behind the first byte.
fn behind_first(text: &[u8]) -> &[u8]
    ensures { result.now ≡ drop 1 text.now }
{
    match text.split_first() {
        Some((_, rest)) => rest,
        None => text,
    }
}

/// A field as text.
pub(crate) fn text_of(field: &[u8]) -> &str
    requires { IsUtf8 field.now }
    ensures { result.now ≡ field.now }
{
    // That it is text is a condition, which is proved; testing it again would read each field twice.
    unsafe { str::from_utf8_unchecked(field) }
}

impl Lines {
    // The same with one line more.
    fn with(&self, line: &[u8]) -> Lines
        requires few { self.now.rows < 2 ^ 32 - 1 }
        requires short { length line.now ≤ 16777216 }
        requires ascii { IsAscii line.now }
        ensures counted { (rows : Rows) → AreCounted rows self.now → AreCounted (rows ++ rows_in line.now) result }
        ensures few { result.rows ≤ self.now.rows + 1 }
    {
        if line.is_empty() {
            return *self;
        }
        Lines {
            rows: self.rows + 1,
            cols: self.cols.max(field_count(line)),
            short: self.short && line.len() <= MAX_FIELD,
        }
    }

    /// The same with the lines behind them.
    pub(crate) fn and(&self, behind: &Lines) -> Lines
        requires { self.now.rows + behind.now.rows < 2 ^ 32 }
        ensures { (front back : Rows) → AreCounted front self.now → AreCounted back behind.now
            → AreCounted (front ++ back) result }
    {
        Lines {
            rows: self.rows + behind.rows,
            cols: self.cols.max(behind.cols),
            short: self.short && behind.short,
        }
    }
}

// Whether the records of a text are its lines: all its bytes are ASCII, and none is a quote.
fn is_plain(text: &[u8]) -> bool
    ensures { IsTrue result → IsPlain text.now }
{
    text.is_ascii() && !text.contains(&b'"')
}

/// What is counted of the lines of a text, in time proportional to its length and without memory; None where they may
/// not be its records.
pub(crate) fn count_lines(text: &[u8]) -> Option<Lines>
    requires { length text.now ≤ 16777216 }
    ensures { IfSome result (λ lines. IsCountOf text.now lines) }
{
    if !is_plain(text) {
        return None;
    }
    let mut lines = Lines {
        rows: 0,
        cols: 0,
        short: true,
    };
    let mut left = text;
    while !left.is_empty() {
        let (line, behind) = split_line(left);
        lines = lines.with(line);
        left = behind;
    }
    Some(lines)
}
