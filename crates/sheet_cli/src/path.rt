// `path`: how one cell of a sheet comes to depend on another.
ghost use Rattle.std.specs.Prelude.{◌≡◌, ◌≤◌, ◌∷◌, IfOk, MatchBool, codes};
ghost use Rattle.sheet_cli.specs.Answers.{AnswersPath, AreInSheet};
ghost use Rattle.sheet_cli.specs.Graphs.{ShowsPath};
ghost use Rattle.sheet_cli.specs.Replies.{RepliesTo, answer_of};
ghost use Rattle.sheet_cli.specs.Requests.Request.{of_path};
ghost use Rattle.sheet_cli.specs.Words.{IsAskedBy, bytes_of};

use crate::graphs::filed_graph;
use crate::output::Output;
use crate::positions::three_words;
use crate::reply::{Reply, outside};
use crate::texts::fetch_sheet;
use crate::words::Asked;
use dep_path::path;
use sheet_io::Shelf;
use sheet_model::Sheet;
use sheet_refs::{Cell, Memory, cell_of};
use std::alloc::Global;
use std::thread::Threads;

/// What `path` and the words after it ask for.
pub(crate) fn read_path(alloc: Global, words: &[String]) -> Result<Asked, Memory>
    ensures { IfOk result (IsAskedBy (codes "path" ∷ bytes_of words.now)) }
{
    let Some((sheet, first, second)) = three_words(alloc, words)? else {
        return Ok(Asked::Nothing);
    };
    let Some(from) = cell_of(first.as_bytes()) else {
        return Ok(Asked::Nothing);
    };
    let Some(to) = cell_of(second.as_bytes()) else {
        return Ok(Asked::Nothing);
    };
    let sheet = String::from_str(alloc, sheet)?;
    Ok(Asked::OfPath { sheet, from, to })
}

/// The reply to `path`. The sheet is fetched and read, then the cells are looked for in it; the first of these that
/// fails gives the refusal.
pub(crate) fn reply_of_path<R: Threads + Sync, F: Shelf>(
    rt: &R,
    alloc: Global,
    name: &str,
    from: Cell,
    to: Cell,
    shelf: &mut F,
) -> Result<Reply, Memory>
    ensures reply { IfOk result (RepliesTo (of_path name.now from to)
        (F.holds shelf.old) (F.faults shelf.old) (F.faults shelf.new)) }
    ensures held { F.holds shelf.new ≡ F.holds shelf.old }
    ensures counted { F.faults shelf.old ≤ F.faults shelf.new }
{
    match fetch_sheet(rt, alloc, name, shelf)? {
        Ok(sheet) => path_reply(alloc, &sheet, from, to),
        Err(reply) => Ok(reply),
    }
}

// The reply to `path` over a sheet.
fn path_reply(alloc: Global, sheet: &Sheet, from: Cell, to: Cell) -> Result<Reply, Memory>
    ensures { IfOk result (λ reply. AnswersPath from to sheet.now (answer_of reply)) }
{
    if !has_both(sheet, from, to) {
        return outside(alloc);
    }
    Ok(Reply::Output(path_output(alloc, sheet, from, to)?))
}

// Whether two cells are in the sheet.
fn has_both(sheet: &Sheet, from: Cell, to: Cell) -> bool
    ensures { MatchBool result (AreInSheet sheet.now from to) (¬ AreInSheet sheet.now from to) }
{
    sheet.holds(from) && sheet.holds(to)
}

// The text that `path` writes of two cells of a sheet.
fn path_output(alloc: Global, sheet: &Sheet, from: Cell, to: Cell) -> Result<Output, Memory>
    ensures { IfOk result (λ text. ShowsPath sheet.now from to text) }
{
    let graph = filed_graph(alloc, sheet)?;
    match path(alloc, &graph, from, to)? {
        Some(chain) => Output::of_chain(alloc, chain),
        None => Output::of_no_chain(alloc),
    }
}
