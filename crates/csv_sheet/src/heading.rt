ghost use Rattle.std.specs.Prelude.{◌≡◌, None, Some, MatchOption};
ghost use Rattle.csv_sheet.specs.Headings.{behind_end as behind_end_of, behind_first as behind_first_of};
ghost use Rattle.csv_sheet.specs.Headings.{heading_of};

use crate::records::behind_marks;
use formula_syntax::Edition;

/// What the first line of a text tells: the edition of its functions, and the records behind it.
#[derive(Clone, Copy)]
pub(crate) struct Heading<'a> {
    pub(crate) edition: Edition,
    /// Without a byte order mark at the front.
    pub(crate) records: &'a [u8],
}

// What is behind a line that ends at the front: at the end of the text, or by LF or CR LF.
fn behind_end(text: &[u8]) -> Option<&[u8]>
    ensures { MatchOption result (behind_end_of text.now ≡ None)
        (λ rest. behind_end_of text.now ≡ Some rest.now) }
{
    if text.is_empty() {
        return Some(text);
    }
    if let Some(rest) = text.strip_prefix(b"\n") {
        return Some(rest);
    }
    text.strip_prefix(b"\r\n")
}

// What is behind the first line of a text, where it is this one.
fn behind_first<'a>(line: &[u8], text: &'a [u8]) -> Option<&'a [u8]>
    ensures { MatchOption result (behind_first_of line.now text.now ≡ None)
        (λ rest. behind_first_of line.now text.now ≡ Some rest.now) }
{
    let rest = text.strip_prefix(line)?;
    behind_end(rest)
}

/// What the first line of a text without byte order marks at its front tells; None where it names an edition that
/// isn't there. The line `#edition 1` or `#edition 2`, ended by LF, CR LF or the end of the text, is taken off, and the
/// byte order marks behind it. A text that doesn't begin with `#edition ` has edition 1.
pub(crate) fn read_heading(text: &[u8]) -> Option<Heading>
    ensures { MatchOption result (heading_of text.now ≡ None)
        (λ found. heading_of text.now
        ≡ Some (record { edition = found.edition; records = found.records.now })) }
{
    if let Some(rest) = behind_first(b"#edition 1", text) {
        return Some(Heading {
            edition: Edition::One,
            records: behind_marks(rest),
        });
    }
    if let Some(rest) = behind_first(b"#edition 2", text) {
        return Some(Heading {
            edition: Edition::Two,
            records: behind_marks(rest),
        });
    }
    if text.starts_with(b"#edition ") {
        return None;
    }
    Some(Heading {
        edition: Edition::One,
        records: text,
    })
}
