ghost use Rattle.std.specs.Prelude.{◌≡◌, ◌+◌, ◌-◌, ◌<◌, ◌≤◌, ◌↔◌, IsTrue, IsFalse};

use crate::axis::{Axis, check_names};
use sheet_refs::{Cell, Range};
use std::marker::Model;

/// How the ranges of a run's cells follow one another. `R` is for an end of the range that moves on with the cell,
/// `F` for one that stays; the first letter is for the head and the second for the tail.
#[derive(Clone, Copy, Debug, PartialEq, Eq)]
pub enum Pattern {
    /// One cell and its range.
    Single,
    /// Both ends move; the ranges are no chain.
    Rr,
    /// The head moves and the tail stays.
    Rf,
    /// The head stays and the tail moves.
    Fr,
    /// Each cell refers to the same range.
    Ff,
    /// Each cell refers to the one before it in its line, or each to the next one.
    Chain,
}

impl Pattern {
    ghost use Rattle.edge_patterns.specs.Edges.{head_moves, tail_moves};

    /// Whether the head of the range moves on with the cell.
    pub(crate) fn head_moves(self) -> bool
        ensures { result ≡ head_moves self }
    {
        matches!(self, Pattern::Rr | Pattern::Rf | Pattern::Chain)
    }

    /// Whether the tail of the range moves on with the cell.
    pub(crate) fn tail_moves(self) -> bool
        ensures { result ≡ tail_moves self }
    {
        matches!(self, Pattern::Rr | Pattern::Fr | Pattern::Chain)
    }
}

/// A run of cells, one cell wide, whose references follow a pattern.
///
/// Contracts see an edge as its three parts (`EdgeValue`), of which the type keeps that they are an edge
/// (`IsEdge`), and as the pairs of a range and a cell for which it stands (`IsPair`).
#[derive(Clone, Copy, Debug, PartialEq, Eq)]
pub struct Edge {
    dep: Range,
    prec: Range,
    pattern: Pattern,
}

impl Model for Edge {
    ghost use Rattle.edge_patterns.specs.Edges.{EdgeValue, IsEdge};

    ghost Value = { EdgeValue };

    ghost view = { λ e. record { dep = e.dep; prec = e.prec; pattern = e.pattern } };

    ghost invariant = { λ e. IsEdge (record { dep = e.dep; prec = e.prec; pattern = e.pattern }) };

    ghost inverse = { λ v. record { dep = v.dep; prec = v.prec; pattern = v.pattern } };
}

impl Edge {
    ghost use Rattle.edge_patterns.specs.Axes.{axis_of, along, slice_of};
    ghost use Rattle.edge_patterns.specs.Edges.{IsEdge, IsRange, run_length, range_at, first_along};
    ghost use Rattle.edge_patterns.specs.Edges.{last_along, part_of_run, part_of_prec, part_of};
    ghost use Rattle.edge_patterns.specs.Edges.{edge_of, BeginsBefore, IsStill, single_edge};

    /// The edge of one cell and the range to which it refers.
    pub fn single(cell: Cell, range: Range) -> Edge
        ensures { result ≡ single_edge cell range }
    {
        let dep = Range::of(cell, cell);
        check_names(&dep);
        check_names(&range);
        Edge {
            dep,
            prec: range,
            pattern: Pattern::Single,
        }
    }

    /// The run: the cells that refer.
    pub fn dep(&self) -> Range
        ensures dep { result ≡ self.now.dep }
        ensures edge { IsEdge self.now }
    {
        self.dep
    }

    /// The smallest rectangle with all ranges that the cells of the run refer to.
    pub fn prec(&self) -> Range
        ensures prec { result ≡ self.now.prec }
        ensures edge { IsEdge self.now }
    {
        self.prec
    }

    /// How the ranges follow one another.
    pub fn pattern(&self) -> Pattern
        ensures pattern { result ≡ self.now.pattern }
        ensures edge { IsEdge self.now }
    {
        self.pattern
    }

    /// The direction of the run.
    pub(crate) fn axis(&self) -> Axis
        ensures axis { result ≡ axis_of self.now.dep }
        ensures edge { IsEdge self.now }
    {
        Axis::of(&self.dep)
    }

    /// How many cells the run has.
    pub(crate) fn len(&self) -> u32
        ensures len { result ≡ run_length self.now }
        ensures some { 0 < result }
        ensures small { result ≤ 1048576 }
        ensures edge { IsEdge self.now }
    {
        self.axis().count(&self.dep)
    }

    /// Where the range of the cell with this index begins, along the run.
    fn first(&self, index: u32) -> u32
        requires { index < run_length self.now }
        ensures first { result ≡ first_along (axis_of self.now.dep) self.now index }
    {
        let first = self.axis().along(self.prec.head());
        if self.pattern.head_moves() {
            first + index
        } else {
            first
        }
    }

    /// Where the range of the cell with this index ends, along the run.
    fn last(&self, index: u32) -> u32
        requires { index < run_length self.now }
        ensures last { result ≡ last_along (axis_of self.now.dep) self.now index }
    {
        let last = self.axis().along(self.prec.tail());
        let left = self.len() - 1 - index;
        if self.pattern.tail_moves() {
            last - left
        } else {
            last
        }
    }

    // Whether an end of the range moves on with the cell; where none does, each cell refers to the whole rectangle.
    fn moves(&self) -> bool
        ensures { IsFalse result → IsStill self.now }
    {
        self.pattern.head_moves() || self.pattern.tail_moves()
    }

    /// The range to which the cell with this index refers.
    pub(crate) fn range_at(&self, index: u32) -> Range
        requires { index < run_length self.now }
        ensures range { result ≡ range_at self.now index }
        ensures named { IsRange result }
    {
        if !self.moves() {
            return self.prec();
        }
        self.axis()
            .slice(&self.prec, self.first(index), self.last(index))
    }

    /// The cells with these indices, from one to another.
    pub(crate) fn cells(&self, from: u32, to: u32) -> Range
        requires ordered { from ≤ to }
        requires within { to < run_length self.now }
        ensures cells { result ≡ part_of_run self.now from to }
        ensures edge { IsEdge self.now }
    {
        let axis = self.axis();
        let head = axis.along(self.dep.head());
        axis.slice(&self.dep, head + from, head + to)
    }

    /// The smallest rectangle with the ranges of the cells with these indices, from one to another.
    pub(crate) fn ranges(&self, from: u32, to: u32) -> Range
        requires ordered { from ≤ to }
        requires within { to < run_length self.now }
        ensures ranges { result ≡ part_of_prec self.now from to }
        ensures named { IsRange result }
        ensures edge { IsEdge self.now }
    {
        self.axis()
            .slice(&self.prec, self.first(from), self.last(to))
    }

    /// Whether the ranges begin before the run does; a chain's cells then refer to the ones before them.
    pub(crate) fn refers_back(&self) -> bool
        ensures { IsTrue result ↔ BeginsBefore self.now }
    {
        let axis = self.axis();
        axis.along(self.prec.head()) < axis.along(self.dep.head())
    }

    /// The edge of the cells with these indices, from one to another, and of their ranges.
    pub(crate) fn part(&self, from: u32, to: u32) -> Edge
        requires ordered { from ≤ to }
        requires within { to < run_length self.now }
        ensures part { result ≡ part_of self.now from to }
        ensures is_edge { IsEdge result }
        ensures edge { IsEdge self.now }
    {
        let dep = self.cells(from, to);
        let prec = self.ranges(from, to);
        let pattern = if from == to {
            Pattern::Single
        } else {
            self.pattern
        };
        Edge { dep, prec, pattern }
    }

    /// The edge with these three parts.
    pub(crate) fn of_parts(dep: Range, prec: Range, pattern: Pattern) -> Edge
        requires { IsEdge (edge_of dep prec pattern) }
        ensures edge { result ≡ edge_of dep prec pattern }
        ensures is_edge { IsEdge result }
    {
        Edge { dep, prec, pattern }
    }
}
