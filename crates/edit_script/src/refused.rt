ghost use Rattle.std.specs.Prelude.{◌≡◌};

use sheet_refs::Memory;
use std::alloc::AllocError;
use std::fmt;

/// Why a text is no script: the first line with a fault, counted from 1, and the first of its causes in this
/// order. Want of memory may come before any.
#[derive(Clone, Copy, Debug, PartialEq, Eq, Drop)]
pub enum ScriptRefused {
    /// The line is none of those that a script may have, isn't UTF-8, wants a cell to hold more than 8,192
    /// bytes, or asks for turns of work in a live script; or it stands within a batch and is neither a change nor
    /// its end; or it ends no batch, or one without changes. Where no line has a fault, it is the first line of the
    /// batch in which the script ends.
    BadLine(u32),
    /// The cell, or a part of the range, lies outside the sheet.
    OutOfSheet(u32),
    /// An earlier line of the same batch changes the cell.
    CellTwice(u32),
    /// The line is change 1,025 of its batch.
    BatchTooLarge(u32),
    /// The line names a 33rd client.
    TooManyClients(u32),
    /// The window has more than 65,536 cells, or all windows so far have more than 4,194,304.
    WindowTooLarge(u32),
    /// The line is edit 1,048,577; a batch is one edit, at its first line.
    TooManyEdits(u32),
    /// What the cell is to hold is a formula with more than 64 open parentheses.
    FormulaTooDeep(u32),
    /// What the cell is to hold is a formula with more than 255 references.
    TooManyRefs(u32),
    /// There was no memory for the script.
    Memory,
}

/// Prints the refusal in words, as `script: line 3: bad line`.
impl fmt::Display for ScriptRefused {
    ghost use Rattle.std.specs.Prelude.{Some};
    ghost use Rattle.edit_script.specs.Scripts.{script_refusal_text};

    ghost output = { λ refused. Some (script_refusal_text refused) };

    fn fmt<W: fmt::Write>(&self, f: &mut fmt::Formatter<W>) -> fmt::Result {
        match self {
            ScriptRefused::BadLine(n) => write!(f, "script: line {n}: bad line"),
            ScriptRefused::OutOfSheet(n) => write!(f, "script: line {n}: cell outside the sheet"),
            ScriptRefused::CellTwice(n) => write!(f, "script: line {n}: cell twice in a batch"),
            ScriptRefused::BatchTooLarge(n) => write!(f, "script: line {n}: batch too large"),
            ScriptRefused::TooManyClients(n) => write!(f, "script: line {n}: too many clients"),
            ScriptRefused::WindowTooLarge(n) => write!(f, "script: line {n}: window too large"),
            ScriptRefused::TooManyEdits(n) => write!(f, "script: line {n}: too many edits"),
            ScriptRefused::FormulaTooDeep(n) => write!(f, "script: line {n}: formula too deep"),
            ScriptRefused::TooManyRefs(n) => write!(f, "script: line {n}: too many references"),
            ScriptRefused::Memory => f.write_str("out of memory"),
        }
    }
}

impl From<Memory> for ScriptRefused {
    ghost use Rattle.edit_script.specs.declared.refused.ScriptRefused.TheVariants as refused;

    ghost from_gives = { λ _ e. e ≡ refused.Memory };

    fn from(_: Memory) -> Self {
        ScriptRefused::Memory
    }
}

impl From<AllocError> for ScriptRefused {
    ghost use Rattle.edit_script.specs.declared.refused.ScriptRefused.TheVariants as refused;

    ghost from_gives = { λ _ e. e ≡ refused.Memory };

    fn from(_: AllocError) -> Self {
        ScriptRefused::Memory
    }
}
