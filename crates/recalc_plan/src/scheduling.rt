ghost use Rattle.std.specs.Prelude.{◌≢◌, ◌↔◌, AllPairs, IfOk, map};
ghost use Rattle.sheet_refs.specs.Cells.{Position};
ghost use Rattle.sheet_refs.specs.Rectangles.{IsAmong};
ghost use Rattle.graph_walk.specs.Graphs.{Step};
ghost use Rattle.recalc_plan.specs.Opens.{AreFirstWaiters};
ghost use Rattle.recalc_plan.specs.Plans.{IsPlan};

use crate::levels::Plan;
use crate::planner::Planner;
use crate::waiter::Waiter;
use graph_walk::Graph;
use sheet_refs::{Cell, MAX_COLS, Memory, Range};
use std::alloc::Global;

// A waiter for each cell, which hasn't looked yet.
fn waiters_of<G: Graph>(alloc: Global, graph: &G, cells: &[Cell]) -> Result<Vec<Waiter>, Memory>
    ensures { IfOk result
        (λ waiters. AreFirstWaiters (G.pairs graph.now) cells.now waiters.items) }
{
    let mut waiters = Vec::new(alloc);
    for cell in cells {
        let left = precedents_of(alloc, graph, *cell)?;
        waiters.push(Waiter {
            cell: *cell,
            left,
            up_to: MAX_COLS,
        })?;
    }
    Ok(waiters)
}

// Ranges with exactly the direct precedents of a cell.
fn precedents_of<G: Graph>(alloc: Global, graph: &G, cell: Cell) -> Result<Vec<Range>, Memory>
    ensures { IfOk result (λ ranges. (from : Position)
        → IsAmong ranges.items from ↔ Step (G.pairs graph.now) from cell) }
{
    let mut ranges = Vec::new(alloc);
    graph.direct_precedents(Range::of(cell, cell), &mut ranges)?;
    Ok(ranges)
}

/// The plan of stale cells over a graph.
///
/// Each stale cell stands once, in one level or among the circular ones. The stale direct precedents of a cell of a
/// level stand in earlier levels and, unless it is the first level, one of them in the level just before, so that each
/// cell stands in the first level in which it can; no level is empty. Circular are exactly those from which steps to
/// stale precedents lead into a cycle.
///
/// It asks the graph once for each stale cell and keeps what that answers until the cell is ready. So it takes memory
/// in proportion to the stale cells and the answered ranges.
///
/// It makes at most two searches in an ordered map for each column of each answered range, and a few each time that a
/// cell waits. A cell waits on one stale cell of a range at a time, in the last column that has one left, on one of any
/// row. Mostly about half of those that are left in the column are ready before that one, so it waits on few of them;
/// at worst it waits on each. Where the columns get ready from the last one on, it waits in each of them.
pub fn plan<G: Graph>(alloc: Global, graph: &G, stale: &[Cell]) -> Result<Plan, Memory>
    requires distinct { AllPairs (λ a b. a ≢ b) stale.now }
    ensures { IfOk result (λ plan. IsPlan (G.pairs graph.now) stale.now
        (map (λ level. level.items) plan.levels.items) plan.circular.items) }
{
    let mut planner = Planner::of(alloc, stale)?;
    let waiters = waiters_of(alloc, graph, stale)?;
    let mut ready = planner.wake(alloc, waiters)?;
    let mut levels = Vec::new(alloc);
    loop {
        let taken = planner.take_out(alloc, &ready)?;
        if taken.level.is_empty() {
            break;
        }
        levels.push(taken.level)?;
        ready = planner.wake(alloc, taken.woken)?;
    }
    let circular = planner.still_open(alloc, stale)?;
    Ok(Plan { levels, circular })
}
