// `show`, `deps` and `precs`: the commands about a window of a sheet.
ghost use Rattle.std.specs.Prelude.{◌≡◌, ◌≤◌, ◌∷◌, MatchBool, IfOk};
ghost use Rattle.sheet_refs.specs.Names.{Finds};
ghost use Rattle.sheet_model.specs.Sheets.{IsWithinSheet};
ghost use Rattle.sheet_cli.specs.Answers.{AnswersWindow, Writes};
ghost use Rattle.sheet_cli.specs.Graphs.{AreDependents, ArePrecedents};
ghost use Rattle.sheet_cli.specs.Replies.{RepliesTo, answer_of};
ghost use Rattle.sheet_cli.specs.Requests.Request.{of_window};
ghost use Rattle.sheet_cli.specs.Words.{IsAskedBy, bytes_of, command_word};

use crate::graphs::filed_graph;
use crate::output::Output;
use crate::positions::two_words;
use crate::reply::{Reply, outside};
use crate::texts::fetch_sheet;
use crate::words::Asked;
use edit_log::graph_of;
use graph_walk::{dependents, precedents};
use sheet_io::Shelf;
use sheet_model::Sheet;
use sheet_refs::{Memory, Range, range_of};
use std::alloc::Global;
use std::thread::Threads;
use taco_graph::SheetGraph;

/// A command about a window of a sheet.
#[derive(Clone, Copy)]
pub enum WindowCommand {
    /// `show`: the values of the window's cells.
    Show,
    /// `deps`: the window's cells and all that depend on them.
    Deps,
    /// `precs`: the window's cells and all on which they depend.
    Precs,
}

/// The command about a window that this word names; None exactly where it names none.
pub(crate) fn window_command(word: &str) -> Option<WindowCommand>
    ensures { Finds result (λ command. word.now ≡ command_word command) }
{
    match word {
        "show" => Some(WindowCommand::Show),
        "deps" => Some(WindowCommand::Deps),
        "precs" => Some(WindowCommand::Precs),
        _ => None,
    }
}

/// What a command about a window and the words after it ask for.
pub(crate) fn read_window(
    alloc: Global,
    command: WindowCommand,
    words: &[String],
) -> Result<Asked, Memory>
    ensures { IfOk result (IsAskedBy (command_word command ∷ bytes_of words.now)) }
{
    let Some((sheet, range)) = two_words(alloc, words)? else {
        return Ok(Asked::Nothing);
    };
    let Some(range) = range_of(range.as_bytes()) else {
        return Ok(Asked::Nothing);
    };
    let sheet = String::from_str(alloc, sheet)?;
    Ok(Asked::OfWindow {
        command,
        sheet,
        range,
    })
}

/// The reply to a command about a window. The sheet is fetched and read, then the range is looked for in it;
/// the first of these that fails gives the refusal.
pub(crate) fn reply_of_window<R: Threads + Sync, F: Shelf>(
    rt: &R,
    alloc: Global,
    command: WindowCommand,
    name: &str,
    range: Range,
    shelf: &mut F,
) -> Result<Reply, Memory>
    ensures reply { IfOk result (RepliesTo (of_window command name.now range)
        (F.holds shelf.old) (F.faults shelf.old) (F.faults shelf.new)) }
    ensures held { F.holds shelf.new ≡ F.holds shelf.old }
    ensures counted { F.faults shelf.old ≤ F.faults shelf.new }
{
    match fetch_sheet(rt, alloc, name, shelf)? {
        Ok(sheet) => window_reply(alloc, command, sheet, range),
        Err(reply) => Ok(reply),
    }
}

// The reply to a command about a window of a sheet.
fn window_reply(
    alloc: Global,
    command: WindowCommand,
    sheet: Sheet,
    range: Range,
) -> Result<Reply, Memory>
    ensures { IfOk result (λ reply. AnswersWindow command range sheet (answer_of reply)) }
{
    if !covers(&sheet, range) {
        return outside(alloc);
    }
    Ok(Reply::Output(window_output(alloc, command, sheet, range)?))
}

/// Whether the range lies wholly in the sheet.
pub(crate) fn covers(sheet: &Sheet, range: Range) -> bool
    ensures { MatchBool result (IsWithinSheet range sheet.now) (¬ IsWithinSheet range sheet.now) }
{
    sheet.holds(range.head()) && sheet.holds(range.tail())
}

// The text that a command writes of a window of the sheet.
fn window_output(
    alloc: Global,
    command: WindowCommand,
    sheet: Sheet,
    range: Range,
) -> Result<Output, Memory>
    requires { IsWithinSheet range sheet }
    ensures { IfOk result (λ text. Writes sheet range command text) }
{
    match command {
        WindowCommand::Show => Output::of_window(alloc, sheet, range),
        WindowCommand::Deps => Output::of_runs(alloc, dependents_of(alloc, &sheet, range)?),
        WindowCommand::Precs => Output::of_runs(alloc, precedents_of(alloc, &sheet, range)?),
    }
}

// The vertical runs of the cells of a range and of all that depend on them.
fn dependents_of(alloc: Global, sheet: &Sheet, range: Range) -> Result<Vec<Range>, Memory>
    ensures { IfOk result (λ runs. AreDependents sheet.now range runs.items) }
{
    let graph = filed_graph(alloc, sheet)?;
    dependents(alloc, &graph, range)?.columns()
}

// The vertical runs of the cells of a range and of all on which they depend. Precedents are found by the cells that
// refer, so that the graph needs no index of rectangles.
fn precedents_of(alloc: Global, sheet: &Sheet, range: Range) -> Result<Vec<Range>, Memory>
    ensures { IfOk result (λ runs. ArePrecedents sheet.now range runs.items) }
{
    let graph = graph_of(alloc, SheetGraph::by_runs(alloc), sheet)?;
    precedents(alloc, &graph, range)?.columns()
}
