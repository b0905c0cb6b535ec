ghost use Rattle.std.specs.Prelude.{◌∷◌, IfOk};
ghost use Rattle.sheet_cli.specs.Words.{IsAskedBy, IsNoWindowWord, bytes_of};

use crate::check::read_check;
use crate::fill::read_fill;
use crate::generated::read_generated;
use crate::live::read_live;
use crate::path::read_path;
use crate::play::read_play;
use crate::script::ScriptCommand;
use crate::undo::read_undo;
use crate::window::{WindowCommand, read_window, window_command};
use sheet_refs::{Cell, Memory, Range};
use std::alloc::Global;

/// What the words of a command line ask for.
#[derive(Drop)]
pub enum Asked {
    /// Nothing: they are no command.
    Nothing,
    /// `COMMAND SHEET RANGE`: a command about a window of the sheet with this name.
    OfWindow {
        command: WindowCommand,
        sheet: String,
        range: Range,
    },
    /// `check SHEET`: the edges that stand for the pairs of the sheet with this name.
    OfCheck {
        sheet: String,
    },
    /// `play SHEET SCRIPT`, `live SHEET SCRIPT` with or without the option for the number of workers, or
    /// `undo SHEET SCRIPT NUMBER`: what a command writes of the script with this name over the sheet with this name.
    OfScript {
        command: ScriptCommand,
        sheet: String,
        script: String,
    },
    /// `gen NUMBER`, with or without the option for the number of workers: what a run of the sheet and the script that
    /// are drawn from the number comes to.
    OfGenerated {
        number: u32,
        workers: u32,
    },
    /// `path SHEET CELL CELL`: how the second cell comes to depend on the first, in the sheet with this name.
    OfPath {
        sheet: String,
        from: Cell,
        to: Cell,
    },
    /// `fill SHEET CELL RANGE`: the edit that fills the range with what the cell holds, in the sheet with this name.
    OfFill {
        sheet: String,
        from: Cell,
        to: Range,
    },
}

/// What the words after the program's name ask for; nothing exactly where they are no command. The
/// time is in proportion to the words.
pub fn read_words(alloc: Global, words: &[String]) -> Result<Asked, Memory>
    ensures { IfOk result (IsAskedBy (bytes_of words.now)) }
{
    let Some((command, rest)) = words.split_first() else {
        return Ok(Asked::Nothing);
    };
    match window_command(command.as_str()) {
        Some(window) => read_window(alloc, window, rest),
        None => read_other(alloc, command.as_str(), rest),
    }
}

// What a command that isn't about a window and the words after it ask for. The words are handed on as they stand, so
// that a command which lists an option takes it out first.
fn read_other(alloc: Global, command: &str, words: &[String]) -> Result<Asked, Memory>
    requires { IsNoWindowWord command.now }
    ensures { IfOk result (IsAskedBy (command.now ∷ bytes_of words.now)) }
{
    match command {
        "check" => read_check(alloc, words),
        "play" => read_play(alloc, words),
        "live" => read_live(alloc, words),
        "undo" => read_undo(alloc, words),
        "path" => read_path(alloc, words),
        "fill" => read_fill(alloc, words),
        "gen" => read_generated(alloc, words),
        _ => Ok(Asked::Nothing),
    }
}
