// The graph of a sheet, for the commands that ask it for dependents.
ghost use Rattle.std.specs.Prelude.{IfOk};
ghost use Rattle.edit_log.specs.Pairs.{ArePairsOf};
ghost use Rattle.taco_graph.specs.Pairs.{pairs_of};

use edit_log::graph_of;
use sheet_model::Sheet;
use sheet_refs::Memory;
use std::alloc::Global;
use taco_graph::SheetGraph;

/// The graph of a sheet. All its edges are made first and their rectangles filed then, which takes less time than to
/// file each as it comes.
pub(crate) fn filed_graph(alloc: Global, sheet: &Sheet) -> Result<SheetGraph, Memory>
    ensures { IfOk result (λ graph. ArePairsOf sheet.now (pairs_of graph.edges)) }
{
    let mut graph = graph_of(alloc, SheetGraph::by_runs(alloc), sheet)?;
    graph.file_rectangles()?;
    Ok(graph)
}
