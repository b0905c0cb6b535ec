// Taking a cell out of an edge.
ghost use Rattle.std.specs.Prelude.{◌≤◌};
ghost use Rattle.sheet_refs.specs.Cells.{IsIn};
ghost use Rattle.edge_patterns.specs.Edges.{run_length};
ghost use Rattle.edge_patterns.specs.Joins.{StandsBefore, IsPartOrNone, LeaveOut};
ghost use Rattle.edge_patterns.specs.Indices.{StandsBetween};

use crate::Edge;
use sheet_refs::Cell;

/// The edges with the pairs of the cells before a cell of the run and of those after it, in constant time. None exactly
/// where there is no cell on that side. A part of one cell is a `Single`, and every other one has the edge's pattern.
pub fn split(e: &Edge, cell: Cell) -> (Option<Edge>, Option<Edge>)
    requires { IsIn cell e.now.dep }
    ensures before { IsPartOrNone result.0 e.now (λ other. StandsBefore e.now other cell) }
    ensures after { IsPartOrNone result.1 e.now (λ other. StandsBefore e.now cell other) }
    ensures parts { LeaveOut result.0 result.1 e.now cell }
{
    let axis = e.axis();
    let index = axis.along(cell) - axis.along(e.dep().head());
    (between(e, 0, index), between(e, index + 1, e.len()))
}

/// The edge of the cells from an index up to another, which is left out.
fn between(e: &Edge, from: u32, end: u32) -> Option<Edge>
    requires { end ≤ run_length e.now }
    ensures { IsPartOrNone result e.now (StandsBetween e.now from end) }
{
    if from >= end {
        return None;
    }
    Some(e.part(from, end - 1))
}
