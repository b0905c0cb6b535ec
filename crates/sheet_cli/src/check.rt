// `check`: the edges that stand for the pairs of a sheet.
ghost use Rattle.std.specs.Prelude.{◌≡◌, ◌≤◌, ◌∷◌, IfOk, codes};
ghost use Rattle.sheet_cli.specs.Graphs.{ListsEdges};
ghost use Rattle.sheet_cli.specs.Replies.{RepliesTo};
ghost use Rattle.sheet_cli.specs.Requests.Request.{of_check};
ghost use Rattle.sheet_cli.specs.Words.{IsAskedBy, bytes_of};

use crate::output::Output;
use crate::positions::one_word;
use crate::reply::Reply;
use crate::texts::fetch_sheet;
use crate::words::Asked;
use edit_log::graph_of;
use sheet_io::Shelf;
use sheet_model::Sheet;
use sheet_refs::Memory;
use std::alloc::Global;
use std::thread::Threads;
use taco_graph::SheetGraph;

/// What `check` and the words after it ask for.
pub(crate) fn read_check(alloc: Global, words: &[String]) -> Result<Asked, Memory>
    ensures { IfOk result (IsAskedBy (codes "check" ∷ bytes_of words.now)) }
{
    let Some(sheet) = one_word(alloc, words)? else {
        return Ok(Asked::Nothing);
    };
    let sheet = String::from_str(alloc, sheet)?;
    Ok(Asked::OfCheck { sheet })
}

/// The reply to `check`.
pub(crate) fn reply_of_check<R: Threads + Sync, F: Shelf>(
    rt: &R,
    alloc: Global,
    name: &str,
    shelf: &mut F,
) -> Result<Reply, Memory>
    ensures reply { IfOk result (RepliesTo (of_check name.now)
        (F.holds shelf.old) (F.faults shelf.old) (F.faults shelf.new)) }
    ensures held { F.holds shelf.new ≡ F.holds shelf.old }
    ensures counted { F.faults shelf.old ≤ F.faults shelf.new }
{
    match fetch_sheet(rt, alloc, name, shelf)? {
        Ok(sheet) => Ok(Reply::Output(check_output(alloc, &sheet)?)),
        Err(reply) => Ok(reply),
    }
}

// The text that `check` writes of a sheet. Of the graph it wants the edges alone, which need no index of rectangles.
fn check_output(alloc: Global, sheet: &Sheet) -> Result<Output, Memory>
    ensures { IfOk result (λ text. ListsEdges sheet.now text) }
{
    let graph = graph_of(alloc, SheetGraph::by_runs(alloc), sheet)?;
    Output::of_edges(alloc, graph.edges()?)
}
