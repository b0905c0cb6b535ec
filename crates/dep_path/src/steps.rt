ghost use Rattle.std.specs.Prelude.{IfOk, MatchOption};
ghost use Rattle.sheet_refs.specs.Cells.{IsIn};
ghost use Rattle.sheet_refs.specs.Rectangles.{IsAmong};
ghost use Rattle.dep_path.specs.Levels.{IsFoundIn, IsStepFrom, SharesNone, HasStepTo};

use graph_walk::Graph;
use sheet_refs::{Cell, Memory, Range};
use std::alloc::Global;

/// A cell of some ranges on which another depends directly, where there is one.
pub(crate) fn step_back<G: Graph>(
    alloc: Global,
    graph: &G,
    level: &[Range],
    cell: Cell,
) -> Result<Cell, Memory>
    requires { HasStepTo (G.pairs graph.now) level.now cell }
    ensures { IfOk result (IsStepFrom (G.pairs graph.now) level.now cell) }
{
    let mut precedents = Vec::new(alloc);
    graph.direct_precedents(Range::of(cell, cell), &mut precedents)?;
    let Some(before) = shared_cell(&precedents, level) else {
        unreachable!();
    };
    Ok(before)
}

// A cell of some ranges that is a cell of others too; None where there is none.
fn shared_cell(some: &[Range], others: &[Range]) -> Option<Cell>
    ensures { MatchOption result (SharesNone (IsAmong some.now) others.now)
        (IsFoundIn (IsAmong some.now) others.now) }
{
    for range in some {
        if let Some(found) = shared_with(range, others) {
            return Some(found);
        }
    }
    None
}

/// A cell of a range that is a cell of others too; None where there is none.
pub(crate) fn shared_with(range: &Range, others: &[Range]) -> Option<Cell>
    ensures { MatchOption result (SharesNone (λ cell. IsIn cell range.now) others.now)
        (IsFoundIn (λ cell. IsIn cell range.now) others.now) }
{
    for other in others {
        if let Some(both) = range.meet(other) {
            return Some(both.head());
        }
    }
    None
}
