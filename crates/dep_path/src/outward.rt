ghost use Rattle.std.specs.Prelude.{◌≡◌, [], map, reverse, IfOk, MatchOption};
ghost use Rattle.graph_walk.specs.Gathers.{Gathers};
ghost use Rattle.graph_walk.specs.Graphs.{Reach};
ghost use Rattle.dep_path.specs.Levels.{IsDirect, LeadOut, one_cell};

use graph_walk::{Graph, gather};
use sheet_refs::{Cell, Memory, Range, RectSet};
use std::alloc::Global;

/// The cells that are reached from a cell, by levels: those of each level need one step more than those of the one
/// before. The last level is the first with the other cell; None exactly where that isn't reached.
pub(crate) fn levels_between<G: Graph>(
    alloc: Global,
    graph: &G,
    from: Cell,
    to: Cell,
) -> Result<Option<Vec<Vec<Range>>>, Memory>
    ensures { IfOk result (λ found. MatchOption found
        (¬ Reach (G.pairs graph.now) (one_cell from) to)
        (λ levels. LeadOut (G.pairs graph.now) from to
        (reverse (map (λ level. level.items) levels.items)))) }
{
    let mut seen = RectSet::new(alloc);
    let mut levels = Vec::new(alloc);
    levels.push(first_level(alloc, &mut seen, from)?)?;
    while !seen.contains(to) {
        let next = next_level(alloc, graph, &mut seen, &levels[levels.len() - 1])?;
        if next.is_empty() {
            return Ok(None);
        }
        levels.push(next)?;
    }
    Ok(Some(levels))
}

// The level of the cell itself.
fn first_level(alloc: Global, seen: &mut RectSet, from: Cell) -> Result<Vec<Range>, Memory>
    requires { seen.old ≡ [] }
    ensures { IfOk result (λ level. Gathers [] seen.new [] level.items (λ cell. cell ≡ from)) }
{
    let mut level = Vec::new(alloc);
    gather(seen, &mut level, &[Range::of(from, from)])?;
    Ok(level)
}

// The cells that depend directly on those of a level, and weren't seen before. What one range of the level answers is
// joined before the next one is asked, so that only the answer of one is held, and not that of a whole level.
fn next_level<G: Graph>(
    alloc: Global,
    graph: &G,
    seen: &mut RectSet,
    level: &[Range],
) -> Result<Vec<Range>, Memory>
    ensures { IfOk result (λ next. Gathers seen.old seen.new [] next.items
        (IsDirect (G.pairs graph.now) level.now)) }
{
    let mut next = Vec::new(alloc);
    let mut found = Vec::new(alloc);
    for range in level {
        found.clear();
        graph.direct_dependents(*range, &mut found)?;
        gather(seen, &mut next, &found)?;
    }
    Ok(next)
}
