// How edges are taken out and put back.
ghost use Rattle.std.specs.Prelude.{◌≡◌, ◌+◌, ◌≤◌, ◌<◌};
ghost use Rattle.sheet_refs.specs.Cells.{span_of};
ghost use Rattle.edge_patterns.specs.Edges.{IsEdge, single_edge};
ghost use Rattle.taco_graph.specs.Stores.{IsApart, AreEdges};
ghost use Rattle.taco_graph.specs.Changes.{LacksCell, HoldsCell, LackCell, GainsPairs, IsJoinedAt};
ghost use Rattle.taco_graph.specs.Changes.{HoldNoMore, HoldElsewhere, KeepsOthers, HoldersAreAmong};
ghost use Rattle.taco_graph.specs.Changes.{HasRoomForParts, KeepsRoomForParts};
ghost use Rattle.taco_graph.specs.Changes.{IsPartApart, GainsPartPairs, PartLacksCell};
ghost use Rattle.taco_graph.specs.Joinable.{KeptAreJoined, OthersAreJoined, AddsJoined};
ghost use Rattle.taco_graph.specs.Joinable.{CantJoinAny, CantJoinBeyond};
ghost use Rattle.graph_walk.specs.Series.{GoOn, steps_of};
ghost use Rattle.taco_graph.specs.Runs.{IsSeriesApart, GainsSeries};
ghost use Rattle.taco_graph.specs.Sides.{NameBeside, AreRound};

use crate::neighbours::Sides;
use crate::store::EdgeStore;
use edge_patterns::{Edge, filled, split};
use graph_walk::Series;
use range_index::RangeIndex;
use sheet_refs::{Cell, Range};

// Tells the proofs around it that an edge is one of the table of patterns; it does nothing.
fn check_edge(edge: &Edge)
    ensures { IsEdge edge.now }
{
    let _ = edge.dep();
}

// Adds an edge that isn't joined.
fn add_alone<I: RangeIndex>(store: &mut EdgeStore<I>, edge: Edge, cell: Cell)
    requires apart { IsApart store.old.slots edge }
    requires none { CantJoinAny store.old.slots edge cell }
    requires room { 1 ≤ store.old.room }
    ensures joined { AddsJoined store.old.slots store.new.slots edge cell }
    ensures pairs { GainsPairs store.old.slots store.new.slots edge }
    ensures holders { LacksCell edge cell → HoldNoMore store.old.slots store.new.slots cell }
    ensures room { store.old.room ≤ store.new.room + 1 }
{
    store.insert(edge);
}

// Adds an edge that can be joined with the one under a key: that one grows in its place.
fn grow<I: RangeIndex>(store: &mut EdgeStore<I>, edge: Edge, key: usize, joined: Edge, cell: Cell)
    requires apart { IsApart store.old.slots edge }
    requires joined { IsJoinedAt store.old.slots key edge cell joined }
    requires beyond { CantJoinBeyond store.old.slots edge joined cell }
    requires others { OthersAreJoined store.old.slots cell }
    requires edges { AreEdges store.old.slots }
    requires is_edge { IsEdge edge }
    requires room { 1 ≤ store.old.room }
    ensures joined { AddsJoined store.old.slots store.new.slots edge cell }
    ensures pairs { GainsPairs store.old.slots store.new.slots edge }
    ensures holders { LacksCell edge cell → HoldNoMore store.old.slots store.new.slots cell }
    ensures room { store.old.room ≤ store.new.room + 1 }
{
    store.change(key, joined);
}

// Adds an edge that can be joined with the one under a key, where the two can be joined with a third: the first one
// grows in its place, and the third is taken out.
fn grow_across<I: RangeIndex>(
    store: &mut EdgeStore<I>,
    edge: Edge,
    key: usize,
    joined: Edge,
    beyond: usize,
    last: Edge,
    cell: Cell,
)
    requires apart { IsApart store.old.slots edge }
    requires joined { IsJoinedAt store.old.slots key edge cell joined }
    requires last { IsJoinedAt store.old.slots beyond joined cell last }
    requires others { OthersAreJoined store.old.slots cell }
    requires edges { AreEdges store.old.slots }
    requires is_edge { IsEdge edge }
    requires room { 1 ≤ store.old.room }
    ensures joined { AddsJoined store.old.slots store.new.slots edge cell }
    ensures pairs { GainsPairs store.old.slots store.new.slots edge }
    ensures holders { LacksCell edge cell → HoldNoMore store.old.slots store.new.slots cell }
    ensures room { store.old.room ≤ store.new.room + 1 }
{
    store.remove(beyond);
    store.change(key, last);
}

/// Adds an edge, joined with up to two edges at the sides of its run that don't hold the cell. After a join the end at
/// which the other edge hasn't grown is looked at.
pub(crate) fn add<I: RangeIndex>(
    store: &mut EdgeStore<I>,
    sides: &mut Sides,
    edge: Edge,
    cell: Cell,
)
    requires apart { IsApart store.old.slots edge }
    requires others { OthersAreJoined store.old.slots cell }
    requires names { NameBeside store.old.slots cell sides.old }
    requires round { AreRound edge.dep sides.old }
    requires room { 1 ≤ store.old.room }
    ensures joined { AddsJoined store.old.slots store.new.slots edge cell }
    ensures names { HoldsCell edge cell → NameBeside store.new.slots cell sides.new }
    ensures round { AreRound edge.dep sides.new }
    ensures pairs { GainsPairs store.old.slots store.new.slots edge }
    ensures holders { LacksCell edge cell → HoldNoMore store.old.slots store.new.slots cell }
    ensures room { store.old.room ≤ store.new.room + 1 }
{
    store.check_edges();
    check_edge(&edge);
    let Some(found) = sides.find(store, &edge, cell) else {
        add_alone(store, edge, cell);
        return;
    };
    let Some(third) = sides.find_beyond(store, &edge, &found.1, cell) else {
        grow(store, edge, found.0, found.1, cell);
        return;
    };
    grow_across(store, edge, found.0, found.1, third.0, third.1, cell);
}

/// Adds the edge of one cell and a range, where the sides are those of the cell.
pub(crate) fn add_single<I: RangeIndex>(
    store: &mut EdgeStore<I>,
    sides: &mut Sides,
    cell: Cell,
    range: Range,
)
    requires apart { IsApart store.old.slots (single_edge cell range) }
    requires joined { KeptAreJoined store.old.slots }
    requires names { NameBeside store.old.slots cell sides.old }
    requires round { AreRound (span_of cell cell) sides.old }
    requires room { 1 ≤ store.old.room }
    ensures joined { KeptAreJoined store.new.slots }
    ensures names { NameBeside store.new.slots cell sides.new }
    ensures round { AreRound (span_of cell cell) sides.new }
    ensures pairs { GainsPairs store.old.slots store.new.slots (single_edge cell range) }
    ensures room { store.old.room ≤ store.new.room + 1 }
{
    let edge = Edge::single(cell, range);
    add(store, sides, edge, cell);
    store.check_edges();
}

/// Adds the edge of a run down a column whose cells have the ranges of a series, where the sides are those of the run.
pub(crate) fn add_filled<I: RangeIndex>(
    store: &mut EdgeStore<I>,
    sides: &mut Sides,
    run: Range,
    series: Series,
)
    requires line { run.tail.col ≡ run.head.col }
    requires several { run.head.row < run.tail.row }
    requires follow { GoOn (steps_of run) series }
    requires apart { IsSeriesApart store.old.slots run series }
    requires joined { KeptAreJoined store.old.slots }
    requires names { NameBeside store.old.slots run.head sides.old }
    requires round { AreRound run sides.old }
    requires room { 1 ≤ store.old.room }
    ensures joined { KeptAreJoined store.new.slots }
    ensures names { NameBeside store.new.slots run.head sides.new }
    ensures round { AreRound run sides.new }
    ensures pairs { GainsSeries store.old.slots store.new.slots run series }
    ensures room { store.old.room ≤ store.new.room + 1 }
{
    let edge = filled(&run, &series.first, &series.last);
    add(store, sides, edge, run.head());
    store.check_edges();
}

// Adds a part that is left of an edge, if there is one.
fn add_part<I: RangeIndex>(
    store: &mut EdgeStore<I>,
    sides: &mut Sides,
    part: Option<Edge>,
    cell: Cell,
)
    requires apart { IsPartApart store.old.slots part }
    requires others { OthersAreJoined store.old.slots cell }
    requires room { 1 ≤ store.old.room }
    ensures others { OthersAreJoined store.new.slots cell }
    ensures pairs { GainsPartPairs store.old.slots store.new.slots part }
    ensures holders { PartLacksCell part cell → HoldNoMore store.old.slots store.new.slots cell }
    ensures room { store.old.room ≤ store.new.room + 1 }
{
    let Some(edge) = part else {
        return;
    };
    sides.turn_to(&edge.dep());
    add(store, sides, edge, cell);
}

// Takes the cell out of the edge under a key, if that one holds it.
fn take_out_at<I: RangeIndex>(store: &mut EdgeStore<I>, sides: &mut Sides, key: usize, cell: Cell)
    requires joined { OthersAreJoined store.old.slots cell }
    requires room { HasRoomForParts store.old.slots cell 0 store.old.room }
    ensures joined { OthersAreJoined store.new.slots cell }
    ensures holders { HoldElsewhere store.old.slots store.new.slots cell key }
    ensures others { KeepsOthers store.old.slots store.new.slots cell }
    ensures room { KeepsRoomForParts store.old.slots store.new.slots cell
        store.old.room store.new.room }
{
    let Some(edge) = store.get(key) else {
        return;
    };
    if !edge.dep().contains(cell) {
        return;
    }
    let (before, after) = split(&edge, cell);
    store.remove(key);
    add_part(store, sides, before, cell);
    add_part(store, sides, after, cell);
}

// Takes the cell out of the edges under these keys.
fn take_out_listed<I: RangeIndex>(
    store: &mut EdgeStore<I>,
    held: &[usize],
    sides: &mut Sides,
    cell: Cell,
)
    requires all { HoldersAreAmong store.old.slots cell held.now }
    requires joined { OthersAreJoined store.old.slots cell }
    requires room { HasRoomForParts store.old.slots cell 0 store.old.room }
    ensures joined { OthersAreJoined store.new.slots cell }
    ensures gone { LackCell store.new.slots cell }
    ensures others { KeepsOthers store.old.slots store.new.slots cell }
    ensures room { KeepsRoomForParts store.old.slots store.new.slots cell
        store.old.room store.new.room }
{
    for key in held {
        take_out_at(store, sides, *key, cell);
    }
}

// Takes the cell out of all edges, each of which it looks at.
fn take_out_of_all<I: RangeIndex>(store: &mut EdgeStore<I>, sides: &mut Sides, cell: Cell)
    requires joined { OthersAreJoined store.old.slots cell }
    requires room { HasRoomForParts store.old.slots cell 0 store.old.room }
    ensures joined { OthersAreJoined store.new.slots cell }
    ensures gone { LackCell store.new.slots cell }
    ensures others { KeepsOthers store.old.slots store.new.slots cell }
    ensures room { KeepsRoomForParts store.old.slots store.new.slots cell
        store.old.room store.new.room }
{
    for key in 0..store.end() {
        take_out_at(store, sides, key, cell);
    }
}

/// Takes a cell out of the edges that hold it. It looks at these edges and their neighbours; where the index wants
/// memory for its answer, which has room, it looks at all.
pub(crate) fn take_out<I: RangeIndex>(
    store: &mut EdgeStore<I>,
    held: &mut Vec<usize>,
    sides: &mut Sides,
    cell: Cell,
)
    requires joined { OthersAreJoined store.old.slots cell }
    requires room { HasRoomForParts store.old.slots cell 0 store.old.room }
    ensures joined { OthersAreJoined store.new.slots cell }
    ensures gone { LackCell store.new.slots cell }
    ensures others { KeepsOthers store.old.slots store.new.slots cell }
    ensures room { KeepsRoomForParts store.old.slots store.new.slots cell
        store.old.room store.new.room }
{
    held.clear();
    match store.keys_by_run(Range::of(cell, cell), held) {
        Ok(()) => take_out_listed(store, held, sides, cell),
        Err(_) => take_out_of_all(store, sides, cell),
    }
}
