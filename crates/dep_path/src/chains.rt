ghost use Rattle.std.specs.Prelude.{◌↔◌, IfOk, IsTrue};
ghost use Rattle.graph_walk.specs.Graphs.{Step};
ghost use Rattle.dep_path.specs.Chains.{IsChain};

use crate::steps::shared_with;
use graph_walk::Graph;
use sheet_refs::{Cell, Memory, Range};
use std::alloc::Global;

/// Whether a list of cells is a chain: it isn't empty, and each next cell depends directly on the one before.
///
/// It refuses nothing but for want of memory, and asks the graph once for each cell but the first.
pub fn is_chain<G: Graph>(alloc: Global, graph: &G, cells: &[Cell]) -> Result<bool, Memory>
    ensures { IfOk result (λ is. IsTrue is ↔ IsChain (G.pairs graph.now) cells.now) }
{
    let Some((first, rest)) = cells.split_first() else {
        return Ok(false);
    };
    let mut before = *first;
    for cell in rest {
        if !depends_directly(alloc, graph, before, *cell)? {
            return Ok(false);
        }
        before = *cell;
    }
    Ok(true)
}

// Whether a cell depends directly on another.
fn depends_directly<G: Graph>(
    alloc: Global,
    graph: &G,
    on: Cell,
    cell: Cell,
) -> Result<bool, Memory>
    ensures { IfOk result (λ is. IsTrue is ↔ Step (G.pairs graph.now) on cell) }
{
    let mut precedents = Vec::new(alloc);
    graph.direct_precedents(Range::of(cell, cell), &mut precedents)?;
    Ok(shared_with(&Range::of(on, on), &precedents).is_some())
}
