ghost use Rattle.std.specs.Prelude.{◌≡◌, ◌≤◌, ◌+◌, IfOk, OnOk, length};
ghost use Rattle.graph_walk.specs.Series.{AddsRun, FollowDown, LackRun};
ghost use Rattle.edit_log.specs.Listings.{ListsAll};
ghost use Rattle.edit_log.specs.Pairs.{ArePairsOf, HasNoPairs};
ghost use Rattle.edit_log.specs.Runs.{AreAdded, cells_down, series_of};
ghost use Rattle.edit_log.specs.Waiting.{AreThereOrWait, HasPairsBefore, HaveNoPlaces};

use crate::listing::{Listing, list_all};
use crate::reaches::Reaches;
use crate::runs::{Run, run_from, series_between};
use crate::waiting::{Waiting, add_alone, add_waiting};
use graph_walk::Graph;
use sheet_model::Sheet;
use sheet_refs::{Cell, Memory, Range};
use std::alloc::Global;

/// A graph without pairs, given those of a sheet: each cell whose formula refers to a range, with that
/// range, once.
///
/// It lists the ranges of all formulas, row by row, for which it takes memory until it is done, and then looks at each
/// cell, column by column and each from the top. Formulas one below the other are a run where they have as many
/// ranges, and each corner of each range stays or goes on by a row from each cell to the next, as in formulas that were
/// filled down; and so are formulas side by side. It adds each run down by one `add_run`, where no longer one goes to
/// the right from its first cell, and a formula that is in no run by a `replace`. Then come the formulas of runs to the
/// right, row by row, and last those in no run that stand above or below one of these: so a row is joined before a
/// formula by itself can be joined with a cell of it.
pub fn graph_of<G: Graph + Drop>(alloc: Global, graph: G, sheet: &Sheet) -> Result<G, Memory>
    requires { HasNoPairs (G.pairs graph) }
    ensures { IfOk result (λ graph. ArePairsOf sheet.now (G.pairs graph)) }
{
    let listing = list_all(alloc, sheet)?;
    let mut waiting = Waiting::new(alloc);
    let mut graph = graph;
    add_runs(alloc, &mut graph, sheet, &listing, &mut waiting)?;
    add_waiting(alloc, &mut graph, sheet, &listing, &mut waiting)?;
    Ok(graph)
}

// Adds the pairs of all runs down and of cells in no run, and lists the places of all other cells that refer.
fn add_runs<G: Graph>(
    alloc: Global,
    graph: &mut G,
    sheet: &Sheet,
    listing: &Listing,
    waiting: &mut Waiting,
) -> Result<(), Memory>
    requires lists { ListsAll sheet.now listing.now }
    requires pairs { HasNoPairs (G.pairs graph.old) }
    requires places { HaveNoPlaces waiting.old }
    ensures { OnOk result (AreThereOrWait sheet.now (G.pairs graph.new) waiting.new) }
{
    let mut reaches = Reaches::new(alloc, sheet)?;
    for col in 1..sheet.cols() + 1 {
        add_column(alloc, graph, sheet, listing, &mut reaches, waiting, col)?;
    }
    Ok(())
}

// Adds the pairs of the runs down a column.
fn add_column<G: Graph>(
    alloc: Global,
    graph: &mut G,
    sheet: &Sheet,
    listing: &Listing,
    reaches: &mut Reaches,
    waiting: &mut Waiting,
    col: u32,
) -> Result<(), Memory>
    requires lists { ListsAll sheet.now listing.now }
    requires named { (1 ≤ col) × (col ≤ sheet.now.sizes.cols) }
    requires before { HasPairsBefore sheet.now col 1 (G.pairs graph.old) waiting.old }
    ensures { OnOk result (HasPairsBefore sheet.now (col + 1) 1 (G.pairs graph.new) waiting.new) }
{
    let mut row = 1;
    while row <= sheet.rows() {
        let cell = Cell::new(row, col).unwrap();
        row += add_from(alloc, graph, sheet, listing, reaches, waiting, cell)?;
    }
    Ok(())
}

// Adds the pairs of a cell and of the cells below that go on with it, unless it is to go on with those to its right:
// then its pairs wait. It answers how many cells these are with the cell.
fn add_from<G: Graph>(
    alloc: Global,
    graph: &mut G,
    sheet: &Sheet,
    listing: &Listing,
    reaches: &mut Reaches,
    waiting: &mut Waiting,
    cell: Cell,
) -> Result<u32, Memory>
    requires lists { ListsAll sheet.now listing.now }
    requires cols { cell.col ≤ sheet.now.sizes.cols }
    requires rows { cell.row ≤ sheet.now.sizes.rows }
    requires before { HasPairsBefore sheet.now cell.col cell.row (G.pairs graph.old) waiting.old }
    ensures { IfOk result (λ count. AreAdded sheet.now cell (G.pairs graph.new) waiting.new count) }
{
    if reaches.is_longer_across(sheet, listing, cell) {
        waiting.put_across(sheet, cell)?;
        return Ok(1);
    }
    let run = run_from(sheet, listing, cell);
    // Cells that refer to nothing are a run without pairs.
    if run.first.is_empty() {
        return Ok(run.count);
    }
    if run.count == 1 {
        add_one(alloc, graph, sheet, reaches, listing, waiting, cell)?;
        return Ok(1);
    }
    add_several(alloc, graph, cell, run)?;
    Ok(run.count)
}

// Adds the pairs of a cell that no cell goes on with. Above or below a cell of a row they wait, so that it isn't joined
// with that one before the row is.
fn add_one<G: Graph>(
    alloc: Global,
    graph: &mut G,
    sheet: &Sheet,
    reaches: &mut Reaches,
    listing: &Listing,
    waiting: &mut Waiting,
    cell: Cell,
) -> Result<(), Memory>
    requires lists { ListsAll sheet.now listing.now }
    requires cols { cell.col ≤ sheet.now.sizes.cols }
    requires rows { cell.row ≤ sheet.now.sizes.rows }
    requires before { HasPairsBefore sheet.now cell.col cell.row (G.pairs graph.old) waiting.old }
    ensures { OnOk result
        (HasPairsBefore sheet.now cell.col (cell.row + 1) (G.pairs graph.new) waiting.new) }
{
    if reaches.touches_a_row(sheet, listing, cell) {
        waiting.put_alone(sheet, cell)?;
        return Ok(());
    }
    add_alone(alloc, graph, cell, listing.at(sheet, cell))?;
    Ok(())
}

// Adds the pairs of a run of several cells, of which this is the first.
fn add_several<G: Graph>(
    alloc: Global,
    graph: &mut G,
    cell: Cell,
    run: Run<'_>,
) -> Result<(), Memory>
    requires several { 2 ≤ run.count }
    requires named { cell.row + run.count ≤ 1048577 }
    requires as_many { length run.last.now ≡ length run.first.now }
    requires follow { FollowDown (cells_down cell run.count)
        (series_of run.first.now run.last.now) }
    requires free { LackRun (G.pairs graph.old) (cells_down cell run.count) }
    ensures { OnOk result (AddsRun (G.pairs graph.old) (G.pairs graph.new)
        (cells_down cell run.entry.count)
        (series_of run.entry.first.now run.entry.last.now)) }
{
    let tail = Cell::new(cell.row() + (run.count - 1), cell.col()).unwrap();
    let series = series_between(alloc, run.first, run.last)?;
    graph.add_run(Range::of(cell, tail), &series)?;
    Ok(())
}
