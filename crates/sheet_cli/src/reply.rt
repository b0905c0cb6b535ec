// What there is to say to the words of a command line, before a byte is written.
ghost use Rattle.std.specs.Prelude.{◌≡◌, ◌≤◌, IfOk};
ghost use Rattle.sheet_cli.specs.Answers.Answer.{refusal as refusal_answer};
ghost use Rattle.sheet_cli.specs.Lines.{outside_line};
ghost use Rattle.sheet_cli.specs.Replies.{IsOwed, answer_of};
ghost use Rattle.sheet_cli.specs.Words.{NamesNoText, bytes_of};

use crate::check::reply_of_check;
use crate::fill::reply_of_fill;
use crate::generated::reply_of_generated;
use crate::output::Output;
use crate::path::reply_of_path;
use crate::script::reply_of_script;
use crate::window::reply_of_window;
use crate::words::{Asked, read_words};
use recalc_workers::Gate;
use sheet_io::Shelf;
use sheet_refs::Memory;
use std::alloc::Global;
use std::sync::Wait;
use std::thread::Threads;

pub(crate) const USAGE: &str =
    "antifreeze: usage: antifreeze show|deps|precs SHEET RANGE; check SHEET; \
    play|live SHEET SCRIPT; gen NUMBER; fill SHEET CELL RANGE; undo SHEET SCRIPT NUMBER; path SHEET CELL CELL; \
    --workers N with live, gen\n";

/// What a run has found out before it writes a byte.
#[derive(Drop)]
pub(crate) enum Reply {
    /// The text that the command writes.
    Output(Output),
    /// Why the command is refused: the status of the run, and the line for the notes.
    Refusal { status: u8, line: String },
}

/// The reply to the words over the texts of a shelf.
pub(crate) fn reply_to<R: Threads + Wait + Sync, F: Shelf, G: Gate + Sync>(
    rt: &R,
    alloc: Global,
    words: &[String],
    shelf: &mut F,
    gate: &G,
) -> Result<Reply, Memory>
    ensures owed { IfOk result (IsOwed (bytes_of words.now)
        (F.holds shelf.old) (F.faults shelf.old) (F.faults shelf.new)) }
    ensures held { F.holds shelf.new ≡ F.holds shelf.old }
    ensures counted { F.faults shelf.old ≤ F.faults shelf.new }
    ensures nothing_fetched { NamesNoText (bytes_of words.now)
        → F.faults shelf.new ≡ F.faults shelf.old }
{
    match read_words(alloc, words)? {
        Asked::OfWindow {
            command,
            sheet,
            range,
        } => reply_of_window(rt, alloc, command, sheet.as_str(), range, shelf),
        Asked::OfCheck { sheet } => reply_of_check(rt, alloc, sheet.as_str(), shelf),
        Asked::OfScript {
            command,
            sheet,
            script,
        } => reply_of_script(
            rt,
            alloc,
            command,
            sheet.as_str(),
            script.as_str(),
            shelf,
            gate,
        ),
        Asked::OfPath { sheet, from, to } => reply_of_path(
            rt,
            alloc,
            sheet.as_str(),
            from,
            to,
            shelf,
        ),
        Asked::OfFill { sheet, from, to } => reply_of_fill(
            rt,
            alloc,
            sheet.as_str(),
            from,
            to,
            shelf,
        ),
        Asked::OfGenerated { number, workers } => {
            reply_of_generated(rt, alloc, number, workers, gate)
        }
        Asked::Nothing => refusal(alloc, 2, USAGE),
    }
}

/// The refusal of a range or a cell that isn't wholly in the sheet.
pub(crate) fn outside(alloc: Global) -> Result<Reply, Memory>
    ensures { IfOk result (λ reply. answer_of reply ≡ refusal_answer 2 outside_line) }
{
    refusal(alloc, 2, "antifreeze: range outside the sheet\n")
}

/// A refusal with this status and this line.
pub(crate) fn refusal(alloc: Global, status: u8, line: &str) -> Result<Reply, Memory>
    ensures { IfOk result (λ reply. answer_of reply ≡ refusal_answer status line.now) }
{
    Ok(Reply::Refusal {
        status,
        line: String::from_str(alloc, line)?,
    })
}
