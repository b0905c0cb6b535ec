// What an edge tells of its dependents and its precedents.
ghost use Rattle.std.specs.Prelude.{◌≡◌, ◌≢◌, ◌<◌, ◌≤◌};
ghost use Rattle.edge_patterns.specs.Axes.{along, axis_of};
ghost use Rattle.edge_patterns.specs.Edges.{IsEdge, run_length};
ghost use Rattle.edge_patterns.specs.Indices.{IsFirst, IsLast, EndsFrom, BeginsBy, FindsIndices};
ghost use Rattle.edge_patterns.specs.Indices.{IsHit, IsAsked};
ghost use Rattle.edge_patterns.specs.Queries.{Covers, IsDirect, IsSpreadTo, IsReferred, IsLedTo};
ghost use Rattle.edge_patterns.specs.Queries.{AnswersWhere};
ghost use Rattle.edge_patterns.specs.declared.edge.Pattern.TheVariants.{Chain};

use crate::{Edge, Pattern};
use sheet_refs::Range;

/// The indices of some cells of a run that follow one another, from 0.
#[derive(Clone, Copy)]
pub(crate) struct Indices {
    pub(crate) from: u32,
    pub(crate) to: u32,
}

// The number of the first cell whose range ends at this coordinate or past it.
fn first_ending_from(e: &Edge, coordinate: u32) -> u32
    requires { coordinate ≤ along (axis_of e.now.dep) e.now.prec.tail }
    ensures { IsFirst (run_length e.now) (EndsFrom e.now coordinate) result }
{
    let last_index = e.len() - 1;
    let last = e.axis().along(e.prec().tail());
    if e.pattern().tail_moves() {
        (coordinate + last_index).saturating_sub(last)
    } else {
        0
    }
}

// The number of the last cell whose range begins at this coordinate or before it.
fn last_beginning_by(e: &Edge, coordinate: u32) -> u32
    requires { along (axis_of e.now.dep) e.now.prec.head ≤ coordinate }
    ensures { IsLast (run_length e.now) (BeginsBy e.now coordinate) result }
{
    let last_index = e.len() - 1;
    let first = e.axis().along(e.prec().head());
    if e.pattern().head_moves() {
        last_index.min(coordinate - first)
    } else {
        last_index
    }
}

// The cells whose ranges overlap the query.
fn hit_indices(e: &Edge, q: Range) -> Option<Indices>
    ensures hit { FindsIndices (run_length e.now) (IsHit e.now q) result }
    ensures edge { IsEdge e.now }
{
    if !e.prec().overlaps(&q) {
        return None;
    }
    let from = first_ending_from(e, e.axis().along(q.head()));
    let to = last_beginning_by(e, e.axis().along(q.tail()));
    if from > to {
        return None;
    }
    Some(Indices { from, to })
}

// The cells that are in the query.
fn asked_indices(e: &Edge, q: Range) -> Option<Indices>
    ensures asked { FindsIndices (run_length e.now) (IsAsked e.now q) result }
    ensures edge { IsEdge e.now }
{
    if !e.dep().overlaps(&q) {
        return None;
    }
    let head = e.axis().along(e.dep().head());
    let from = e.axis().along(q.head()).saturating_sub(head);
    let to = (e.len() - 1).min(e.axis().along(q.tail()) - head);
    Some(Indices { from, to })
}

/// The cells of the run whose range overlaps the query, in constant time; None exactly where there is none.
pub fn direct(e: &Edge, q: Range) -> Option<Range>
    ensures covers { Covers result (IsDirect e.now q) }
    ensures none { AnswersWhere result e.now.prec q }
{
    let Some(hit) = hit_indices(e, q) else {
        return None;
    };
    Some(e.cells(hit.from, hit.to))
}

/// The cells that the edge's own pairs reach from the query, in constant time: for a Chain in one or more
/// steps, and for the other patterns as `direct`. None exactly where there is none.
pub fn spread(e: &Edge, q: Range) -> Option<Range>
    ensures chain { e.now.pattern ≡ Chain → Covers result (IsSpreadTo e.now q) }
    ensures others { e.now.pattern ≢ Chain → Covers result (IsDirect e.now q) }
    ensures none { AnswersWhere result e.now.prec q }
{
    let Some(hit) = hit_indices(e, q) else {
        return None;
    };
    if e.pattern() != Pattern::Chain {
        return Some(e.cells(hit.from, hit.to));
    }
    if e.refers_back() {
        Some(e.cells(hit.from, e.len() - 1))
    } else {
        Some(e.cells(0, hit.to))
    }
}

/// The cells to which the run's cells in the query refer, in constant time: for a Chain in one or more steps of the
/// edge's own pairs. None exactly where the query misses the run.
pub fn back(e: &Edge, q: Range) -> Option<Range>
    ensures chain { e.now.pattern ≡ Chain → Covers result (IsLedTo e.now q) }
    ensures others { e.now.pattern ≢ Chain → Covers result (IsReferred e.now q) }
    ensures none { AnswersWhere result q e.now.dep }
{
    let Some(asked) = asked_indices(e, q) else {
        return None;
    };
    if e.pattern() != Pattern::Chain {
        return Some(e.ranges(asked.from, asked.to));
    }
    if e.refers_back() {
        Some(e.ranges(0, asked.to))
    } else {
        Some(e.ranges(asked.from, e.len() - 1))
    }
}
