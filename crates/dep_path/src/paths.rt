ghost use Rattle.std.specs.Prelude.{map, reverse, IfOk, MatchOption};
ghost use Rattle.graph_walk.specs.Graphs.{Reach};
ghost use Rattle.dep_path.specs.Chains.{IsShortest};
ghost use Rattle.dep_path.specs.Levels.{LeadOut, one_cell};

use crate::outward::levels_between;
use crate::steps::step_back;
use graph_walk::Graph;
use sheet_refs::{Cell, Memory, Range};
use std::alloc::Global;

/// A shortest chain from a cell to another: each next cell depends directly on the one before. None exactly where the
/// other cell doesn't depend on the first in any number of steps; of equal cells it is the one cell.
///
/// It refuses nothing but for want of memory. It asks the graph once for each range of cells that are equally far from
/// the first, up to the other cell, and then once for each cell of the chain. Memory is in proportion to these ranges
/// and to the longest answer for one of them.
pub fn path<G: Graph>(
    alloc: Global,
    graph: &G,
    from: Cell,
    to: Cell,
) -> Result<Option<Vec<Cell>>, Memory>
    ensures { IfOk result (λ found. MatchOption found
        (¬ Reach (G.pairs graph.now) (one_cell from) to)
        (λ chain. IsShortest (G.pairs graph.now) from to chain.items)) }
{
    let Some(levels) = levels_between(alloc, graph, from, to)? else {
        return Ok(None);
    };
    Ok(Some(chain_through(alloc, graph, levels, from, to)?))
}

// The chain through the levels, found from its end.
fn chain_through<G: Graph>(
    alloc: Global,
    graph: &G,
    levels: Vec<Vec<Range>>,
    from: Cell,
    to: Cell,
) -> Result<Vec<Cell>, Memory>
    requires { LeadOut (G.pairs graph.now) from to
        (reverse (map (λ level. level.items) levels.items)) }
    ensures { IfOk result (λ chain. IsShortest (G.pairs graph.now) from to chain.items) }
{
    let mut left = levels;
    left.pop();
    let mut chain = Vec::new(alloc);
    let mut cell = to;
    chain.push(cell)?;
    while let Some(level) = left.pop() {
        cell = step_back(alloc, graph, &level, cell)?;
        chain.push(cell)?;
    }
    chain.reverse();
    Ok(chain)
}
