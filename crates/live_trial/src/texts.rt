use live_sheet::Closed;
use recalc_workers::Turn;
use sheet_model::{Board, Shown};
use std::fmt::Write;
use std::process::Abort;
use std::test::Fail;
use value_core::{Value, decode};

// Writes a value.
fn write_value(text: &mut String, value: &Value) -> Result<(), Fail> {
    match value {
        Value::Number(number) => write!(text, " {number}")?,
        Value::Error(kind) => write!(text, " {kind}")?,
        Value::Empty => text.push_str(" -")?,
        _ => text.push_str(" ?")?,
    }
    Ok(())
}

/// Writes the number of a board, and what is shown of each cell.
pub(crate) fn write_board(text: &mut String, board: &Board) -> Result<(), Fail> {
    write!(text, "{}:", board.number())?;
    for shown in board.cells() {
        match shown {
            Shown::Value(value) => write_value(text, value)?,
            Shown::Stale(number) => write!(text, " ~{number}")?,
            Shown::Newer(number) => write!(text, " ^{number}")?,
        }
    }
    Ok(())
}

/// Writes the values of which these are the codes.
pub(crate) fn write_codes(text: &mut String, codes: &[u64]) -> Result<(), Fail> {
    for code in codes {
        let Some(value) = decode(*code) else {
            return Err(Fail::from("no code"));
        };
        write_value(text, &value)?;
    }
    Ok(())
}

/// Writes how many entries a closed sheet leaves, and the values.
pub(crate) fn write_closed(text: &mut String, closed: &Closed) -> Result<(), Fail> {
    write!(text, "{}:", closed.log.len())?;
    write_codes(text, &closed.values)
}

/// Writes what a turn came to.
pub(crate) fn write_turn(text: &mut String, turn: &Turn) -> Result<(), Fail> {
    match turn {
        Turn::Done(cell) => write!(text, " {cell} is done")?,
        Turn::Idle => text.push_str(" idle")?,
        Turn::Stale { cell, input, met } => write!(text, " {cell} waits for {input} at {met}")?,
        Turn::Busy { cell, seen, found } if seen.held && seen == found => {
            write!(text, " {cell} is held")?
        }
        _ => text.push_str(" other")?,
    }
    Ok(())
}

/// Writes what was told beside a turn, and then what the turn came to.
pub(crate) fn write_beside(
    text: &mut String,
    told: Result<String, Fail>,
    turn: &Turn,
) -> Result<(), Fail> {
    text.push_str(told?.as_str())?;
    write_turn(text, turn)
}

/// What is told has to be this.
pub(crate) fn is_told(rt: &impl Abort, found: &str, wanted: &str) {
    assert_eq!(rt; found, wanted);
}
