ghost use Rattle.std.specs.Prelude.{◌≡◌, ◌<◌, is_ok};
ghost use Rattle.std.specs.Prelude.{MatchOption};
ghost use Rattle.std.specs.Prelude.{length, Some};
ghost use Rattle.std.specs.Fmt.{decimal};
ghost use Rattle.sheet_refs.specs.Names.{cell_text, range_text};
ghost use Rattle.value_core.specs.Values.{in_quotes};
ghost use Rattle.text_pieces.specs.Pieces.{HandsOut};
ghost use Rattle.window_text.specs.Texts.{shown_value};
ghost use Rattle.sheet_model.specs.Labels.{label_text};
ghost use Rattle.window_text.specs.Quotes.{HasNoQuote, IsFirstQuote};

use itoa::Buffer;
use memchr::memchr;
use sheet_model::Labels;
use sheet_refs::{Cell, Range};
use text_pieces::{send, send_cell, send_range};
use value_core::{ErrorKind, Value};

/// Whoever takes the text has answered that no more of it is taken.
#[derive(Clone, Copy)]
pub(crate) struct Stopped;

/// What the answer to a piece comes to: an error where no more is taken.
pub(crate) fn taken(more: bool) -> Result<(), Stopped>
    ensures { is_ok result ≡ more }
{
    if more { Ok(()) } else { Err(Stopped) }
}

/// Hands out bytes in one piece.
pub(crate) fn send_bytes<F: FnMut(&[u8]) -> bool>(piece: &[u8], to: &mut F) -> Result<(), Stopped>
    requires callable { F.IsAlwaysCallable to.old }
    ensures sent { HandsOut F.FnMut to.old piece.now (is_ok result) to.new }
    ensures callable { F.IsAlwaysCallable to.new }
{
    taken(send(piece, to))
}

/// Hands out the name of a range.
pub(crate) fn send_range_name<F: FnMut(&[u8]) -> bool>(
    range: Range,
    to: &mut F,
) -> Result<(), Stopped>
    requires callable { F.IsAlwaysCallable to.old }
    ensures sent { HandsOut F.FnMut to.old (range_text range) (is_ok result) to.new }
    ensures callable { F.IsAlwaysCallable to.new }
{
    taken(send_range(range, to))
}

/// Hands out the name of a cell.
pub(crate) fn send_cell_name<F: FnMut(&[u8]) -> bool>(cell: Cell, to: &mut F) -> Result<(), Stopped>
    requires callable { F.IsAlwaysCallable to.old }
    ensures sent { HandsOut F.FnMut to.old (cell_text cell) (is_ok result) to.new }
    ensures callable { F.IsAlwaysCallable to.new }
{
    taken(send_cell(cell, to))
}

/// Hands out a number.
pub(crate) fn send_decimal<F: FnMut(&[u8]) -> bool>(number: u64, to: &mut F) -> Result<(), Stopped>
    requires callable { F.IsAlwaysCallable to.old }
    ensures sent { HandsOut F.FnMut to.old (decimal number) (is_ok result) to.new }
    ensures callable { F.IsAlwaysCallable to.new }
{
    send_bytes(Buffer::new().format(number).as_bytes(), to)
}

/// Hands out a value, as it is printed beside a table of labels.
pub(crate) fn send_value<F: FnMut(&[u8]) -> bool>(
    value: Value,
    labels: &Labels,
    to: &mut F,
) -> Result<(), Stopped>
    requires callable { F.IsAlwaysCallable to.old }
    ensures sent { HandsOut F.FnMut to.old (shown_value labels.now value) (is_ok result) to.new }
    ensures callable { F.IsAlwaysCallable to.new }
{
    match &value {
        Value::Empty => Ok(()),
        Value::Number(number) => send_bytes(Buffer::new().format(number.get()).as_bytes(), to),
        Value::Truth(true) => send_bytes(b"TRUE", to),
        Value::Truth(false) => send_bytes(b"FALSE", to),
        Value::Error(kind) => send_bytes(kind.name().as_bytes(), to),
        Value::Label(place) => send_quoted(label_at(labels, *place), to),
    }
}

// The text of a label; one that isn't in the table would have none.
fn label_at(labels: &Labels, place: u32) -> &str
    ensures { result.now ≡ label_text labels.now place }
{
    if place < labels.length() {
        labels.text(place)
    } else {
        ""
    }
}

// Hands out a text between quotes, each quote in it doubled: what stands between quotes in one piece.
fn send_quoted<F: FnMut(&[u8]) -> bool>(text: &str, to: &mut F) -> Result<(), Stopped>
    requires callable { F.IsAlwaysCallable to.old }
    ensures sent { HandsOut F.FnMut to.old (in_quotes text.now) (is_ok result) to.new }
    ensures callable { F.IsAlwaysCallable to.new }
{
    send_bytes(b"\"", to)?;
    let mut rest = text.as_bytes();
    while let Some(place) = quote_place(rest) {
        let (front, back) = rest.split_at(place);
        send_bytes(front, to)?;
        send_bytes(b"\"\"", to)?;
        rest = &back[1..];
    }
    send_bytes(rest, to)?;
    send_bytes(b"\"", to)
}

// The place of the first quote.
fn quote_place(text: &[u8]) -> Option<usize>
    ensures { MatchOption result (HasNoQuote text.now) (IsFirstQuote text.now) }
{
    memchr(b'"', text)
}
