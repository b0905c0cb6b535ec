ghost use Rattle.std.specs.Prelude.{◌≡◌, ◌≢◌, ◌↔◌, ◌∷◌, [], ℕ, List, IsTrue, option_map};
ghost use Rattle.sheet_refs.specs.Cells.{Position};
ghost use Rattle.sheet_refs.specs.Names.{Finds};
ghost use Rattle.edit_script.specs.Lines.{IsClientName, IsNameByte, IsSpaced, SetsCell, IsTurns, FitsMode};
ghost use Rattle.edit_script.specs.Lines.{Client, Set, Work};
ghost use Rattle.edit_script.specs.Saying.{line_value, FindsLine, Orders};

use crate::script::Mode;
use formula_syntax::MAX_FIELD;
use sheet_refs::{Cell, Range, cell_of, decimal_of, range_of};

/// The most letters of a client's name.
const MAX_NAME: usize = 32;

/// The most turns of one line, and the most digits that write their number.
const MAX_TURNS: u64 = 1_048_576;

const MAX_TURN_DIGITS: usize = 7;

/// What a line says.
#[derive(Clone, Copy)]
pub(crate) enum Line<'a> {
    /// Nothing: it is empty, or begins with `#`.
    Skip,
    /// The lines behind it belong to this client.
    Client(&'a str),
    /// The cell is to hold what this text writes.
    Set(Cell, &'a str),
    /// The cell is to hold nothing.
    Clear(Cell),
    /// A look at the window.
    Look(Range),
    /// A look at the window, once all of it is computed.
    Firm(Range),
    /// So many turns of work.
    Work(u32),
    /// The changes of one edit follow.
    Batch,
    /// They end.
    End,
}

/// What a line says in a script of the mode; None where it says nothing that a script may have.
pub(crate) fn read_line(line: &[u8], mode: Mode) -> Option<Line<'_>>
    ensures { FindsLine mode line.now result }
{
    if line.is_empty() {
        return Some(Line::Skip);
    }
    if line[0] == b'#' {
        return Some(Line::Skip);
    }
    let Ok(text) = str::from_utf8(line) else {
        return None;
    };
    read_words(text, mode)
}

// What a text that is no comment says in a script of the mode.
fn read_words(text: &str, mode: Mode) -> Option<Line<'_>>
    requires some { text.now ≢ [] }
    requires no_comment { (rest : List ℕ) → text.now ≢ 35 ∷ rest }
    ensures { FindsLine mode text.now result }
{
    match text {
        "batch" => Some(Line::Batch),
        "end" => Some(Line::End),
        _ => read_spaced(text, mode),
    }
}

// What a word and something behind it say, parted by a space.
fn read_spaced(text: &str, mode: Mode) -> Option<Line<'_>>
    ensures { Finds (option_map line_value result) (λ value. (word : List ℕ) × (behind : List ℕ)
        × IsSpaced word behind text.now × Orders mode word behind value) }
{
    let (word, behind) = text.split_once(' ')?;
    read_order(word, behind, mode)
}

// What a word and what stands behind it say in a script of the mode.
fn read_order<'a>(word: &str, behind: &'a str, mode: Mode) -> Option<Line<'a>>
    ensures { Finds (option_map line_value result) (Orders mode word.now behind.now) }
{
    match word {
        "client" => read_client(behind),
        "set" => read_setting(behind),
        "clear" => Some(Line::Clear(cell_of(behind.as_bytes())?)),
        "look" => Some(Line::Look(range_of(behind.as_bytes())?)),
        "firm" => Some(Line::Firm(range_of(behind.as_bytes())?)),
        "work" => read_turns(behind, mode),
        _ => None,
    }
}

// A client's name.
fn read_client(text: &str) -> Option<Line<'_>>
    ensures { Finds (option_map line_value result)
        (λ value. (value ≡ Client text.now) × IsClientName text.now) }
{
    if is_client_name(text.as_bytes()) {
        Some(Line::Client(text))
    } else {
        None
    }
}

// Whether bytes are the name of a client.
fn is_client_name(bytes: &[u8]) -> bool
    ensures { IsTrue result ↔ IsClientName bytes.now }
{
    if bytes.is_empty() || bytes.len() > MAX_NAME {
        return false;
    }
    bytes.iter().all(|byte| is_name_byte(*byte))
}

// Whether a byte may stand in a client's name.
fn is_name_byte(byte: u8) -> bool
    ensures { IsTrue result ↔ IsNameByte byte }
{
    byte.is_ascii_alphanumeric() || byte == b'_' || byte == b'-'
}

// The cell, and what it is to hold behind a space.
fn read_setting(text: &str) -> Option<Line<'_>>
    ensures { Finds (option_map line_value result) (λ value. (cell : Position) × (content : List ℕ)
        × (value ≡ Set cell content) × SetsCell text.now cell content) }
{
    let (name, content) = text.split_once(' ')?;
    let cell = cell_of(name.as_bytes())?;
    if content.len() > MAX_FIELD {
        return None;
    }
    Some(Line::Set(cell, content))
}

// A number of turns, for which no live script asks.
fn read_turns(text: &str, mode: Mode) -> Option<Line<'_>>
    ensures { Finds (option_map line_value result) (λ value. (turns : ℕ)
        × (value ≡ Work turns) × IsTurns text.now turns × FitsMode mode value) }
{
    let Mode::Play = mode else {
        return None;
    };
    if text.len() > MAX_TURN_DIGITS {
        return None;
    }
    let turns = decimal_of(text.as_bytes(), MAX_TURNS)?;
    if turns == 0 {
        return None;
    }
    Some(Line::Work(turns as u32))
}
