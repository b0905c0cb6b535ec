ghost use Rattle.std.specs.Prelude.{ℕ, ◌+◌, ◌≤◌, List, OnErr, OnOk};
ghost use Rattle.graph_walk.specs.Graphs.{Pair, Keeps, SamePairs, Replaces};
ghost use Rattle.graph_walk.specs.Graphs.{AddsDirectDependents, AddsDirectPrecedents, AddsAhead};
ghost use Rattle.graph_walk.specs.Graphs.{AddsBehind};
ghost use Rattle.graph_walk.specs.Series.{FollowDown, LackRun, AddsRun};

use crate::series::Series;
use sheet_refs::{Cell, Memory, Range, Refs};

/// The dependency graph of a sheet: a finite set of pairs of a range and a cell that refers to it.
///
/// The queries add ranges to a list that they are lent; after Memory the list begins with what it held.
pub trait Graph {
    /// The pairs, as a list in which the order and repeats mean nothing.
    ghost pairs: { Self → List Pair };

    /// How many calls of `replace` there is room for.
    ghost spare: { Self → ℕ };

    /// Adds ranges whose cells are exactly those that refer to a range that shares a cell with `q`.
    fn direct_dependents(&self, q: Range, out: &mut Vec<Range>) -> Result<(), Memory>
        ensures found { OnOk result
            (AddsDirectDependents (pairs self.now) q out.old.items out.new.items) }
        ensures kept { Keeps out.old.items out.new.items };

    /// Adds ranges whose cells are exactly those of the ranges to which cells of `q` refer.
    fn direct_precedents(&self, q: Range, out: &mut Vec<Range>) -> Result<(), Memory>
        ensures found { OnOk result
            (AddsDirectPrecedents (pairs self.now) q out.old.items out.new.items) }
        ensures kept { Keeps out.old.items out.new.items };

    /// Adds ranges that hold all direct dependents of `q` and only cells that depend on it, in at least one step.
    fn ahead(&self, q: Range, out: &mut Vec<Range>) -> Result<(), Memory>
        ensures found { OnOk result (AddsAhead (pairs self.now) q out.old.items out.new.items) }
        ensures kept { Keeps out.old.items out.new.items };

    /// Adds ranges that hold all direct precedents of `q` and only cells on which it depends, in at least one step.
    fn behind(&self, q: Range, out: &mut Vec<Range>) -> Result<(), Memory>
        ensures found { OnOk result (AddsBehind (pairs self.now) q out.old.items out.new.items) }
        ensures kept { Keeps out.old.items out.new.items };

    /// Makes room for so many calls of `replace`, at most 1,048,576. The pairs and what room there was stay, after
    /// Memory too.
    fn reserve(&mut self, changes: u32) -> Result<(), Memory>
        requires { changes ≤ 1048576 }
        ensures room { OnOk result (changes ≤ spare self.new) }
        ensures keeps_room { spare self.old ≤ spare self.new }
        ensures same { SamePairs (pairs self.old) (pairs self.new) };

    /// Makes the pairs of a cell exactly those with these ranges, and changes no other pair. It takes no memory.
    fn replace(&mut self, cell: Cell, refs: &Refs)
        requires { 1 ≤ spare self.old }
        ensures replaced { Replaces (pairs self.old) (pairs self.new) cell refs.now }
        ensures room { spare self.old ≤ spare self.new + 1 };

    /// Adds the pairs of a run of at least two cells down a column, which have none: each of its cells refers to its
    /// range of each of the series, at most 255, by none of which it has the same range as by another. It may use up
    /// what room has been made for `replace`. After Memory the pairs are those that there were.
    fn add_run(&mut self, run: Range, series: &[Series]) -> Result<(), Memory>
        requires follow { FollowDown run series.now }
        requires free { LackRun (pairs self.old) run }
        ensures added { OnOk result (AddsRun (pairs self.old) (pairs self.new) run series.now) }
        ensures same { OnErr result (SamePairs (pairs self.old) (pairs self.new)) };
}
