// Joining two edges.
ghost use Rattle.std.specs.Prelude.{◌≡◌, ◌≢◌, ◌+◌, ◌-◌, ◌<◌, ◌≤◌, ◌↔◌, IsTrue};
ghost use Rattle.sheet_refs.specs.Names.{Finds};
ghost use Rattle.edge_patterns.specs.Axes.{IsLine, along, count_along};
ghost use Rattle.edge_patterns.specs.Edges.{run_length, IsBeside, head_moves, tail_moves};
ghost use Rattle.edge_patterns.specs.Joins.{Follows, HasBothPairs, IsJoin, HasEnds, HasInnerRanges};
ghost use Rattle.edge_patterns.specs.Joins.{IsAsWide, Moves, GoesDown};
ghost use Rattle.edge_patterns.specs.declared.axis.Axis.TheVariants.{Down};
ghost use Rattle.edge_patterns.specs.declared.edge.Pattern.TheVariants.{Single, Chain};

use crate::axis::Axis;
use crate::edge::{Edge, Pattern};
use sheet_refs::Range;

/// The one edge with exactly the pairs of two edges whose runs are neighbours in one line, in constant time.
/// None exactly where the runs aren't neighbours, or no edge has these pairs. The order of the two doesn't
/// matter.
pub fn join(a: &Edge, b: &Edge) -> Option<Edge>
    ensures joined { Finds result (IsJoin a.now b.now) }
    ensures either_order { Finds result (IsJoin b.now a.now) }
{
    if follows(Axis::Down, a, b) {
        return union_of(Axis::Down, a, b);
    }
    if follows(Axis::Down, b, a) {
        return union_of(Axis::Down, b, a);
    }
    if follows(Axis::Right, a, b) {
        return union_of(Axis::Right, a, b);
    }
    if follows(Axis::Right, b, a) {
        return union_of(Axis::Right, b, a);
    }
    None
}

// Whether the second run goes on where the first one ends.
fn follows(axis: Axis, front: &Edge, rear: &Edge) -> bool
    ensures { IsTrue result ↔ Follows axis front.now.dep rear.now.dep }
{
    let first = front.dep();
    let second = rear.dep();
    axis.is_line(&first)
        && axis.is_line(&second)
        && axis.across(first.head()) == axis.across(second.head())
        && axis.along(first.tail()) + 1 == axis.along(second.head())
}

// The edge with the pairs of both: the one with their outer ranges at its ends, if it has their inner ranges too, since
// ranges that move alike and agree at two cells agree at all between them.
fn union_of(axis: Axis, front: &Edge, rear: &Edge) -> Option<Edge>
    requires { Follows axis front.now.dep rear.now.dep }
    ensures { Finds result (HasBothPairs front.now rear.now) }
{
    // Most neighbours refer to other columns, or other rows, which is found at a look.
    if !is_as_wide(axis, &front.prec(), &rear.prec()) {
        return None;
    }
    let dep = Range::of(front.dep().head(), rear.dep().tail());
    let outer = over(axis, dep, front.range_at(0), rear.range_at(rear.len() - 1));
    let Some(edge) = outer else {
        return None;
    };
    if !has_inner_ranges(&edge, front, rear) {
        return None;
    }
    Some(edge)
}

// Whether an edge has the last range of one edge and the first range of another where their runs meet.
fn has_inner_ranges(edge: &Edge, front: &Edge, rear: &Edge) -> bool
    requires longer { run_length front.now < run_length edge.now }
    requires some { 0 < run_length rear.now }
    ensures { IsTrue result ↔ HasInnerRanges edge.now front.now rear.now }
{
    let inner = front.len();
    edge.range_at(inner - 1) == front.range_at(inner - 1)
        && edge.range_at(inner) == rear.range_at(0)
}

/// The edge of a run down a column whose first and last cells have these ranges. Between them each end of the ranges
/// stays, or goes on by a row from each cell to the next.
pub fn filled(run: &Range, first: &Range, last: &Range) -> Edge
    requires line { IsLine Down run.now }
    requires several { 2 ≤ count_along Down run.now }
    requires follow { GoesDown run.now first.now last.now }
    ensures { HasEnds Down run.now first.now last.now result }
{
    let head = first.head().row() != last.head().row();
    let tail = first.tail().row() != last.tail().row();
    spanned(Axis::Down, *run, *first, *last, head, tail)
}

// The edge with this run whose first and last cells have these ranges.
fn over(axis: Axis, dep: Range, first: Range, last: Range) -> Option<Edge>
    requires line { IsLine axis dep }
    requires several { 2 ≤ count_along axis dep }
    ensures { Finds result (HasEnds axis dep first last) }
{
    if !is_as_wide(axis, &first, &last) {
        return None;
    }
    let count = axis.count(&dep) - 1;
    let Some(head) = moves(axis.along(first.head()), axis.along(last.head()), count) else {
        return None;
    };
    let Some(tail) = moves(axis.along(first.tail()), axis.along(last.tail()), count) else {
        return None;
    };
    Some(spanned(axis, dep, first, last, head, tail))
}

// The same, where it is known whether heads and tails move.
fn spanned(axis: Axis, dep: Range, first: Range, last: Range, head: bool, tail: bool) -> Edge
    requires line { IsLine axis dep }
    requires several { 2 ≤ count_along axis dep }
    requires wide { IsAsWide axis first last }
    requires head { Moves (along axis first.head) (along axis last.head) (count_along axis dep - 1) head }
    requires tail { Moves (along axis first.tail) (along axis last.tail) (count_along axis dep - 1) tail }
    ensures { HasEnds axis dep first last result }
{
    let prec = Range::of(first.head(), last.tail());
    let pattern = pattern_of(head, tail, is_beside(axis, &dep, &prec));
    Edge::of_parts(dep, prec, pattern)
}

// Whether two ranges lie between the same coordinates across a direction.
fn is_as_wide(axis: Axis, a: &Range, b: &Range) -> bool
    ensures { IsTrue result ↔ IsAsWide axis a.now b.now }
{
    axis.across(a.head()) == axis.across(b.head()) && axis.across(a.tail()) == axis.across(b.tail())
}

// Whether a coordinate moves by one from each of some cells to the next, or stays.
fn moves(first: u32, last: u32, count: u32) -> Option<bool>
    requires { 0 < count }
    ensures { Finds result (Moves first last count) }
{
    if last == first {
        Some(false)
    } else if last > first && last - first == count {
        Some(true)
    } else {
        None
    }
}

// Whether the range is the run, moved on or back by one cell.
fn is_beside(axis: Axis, run: &Range, range: &Range) -> bool
    ensures { IsTrue result ↔ IsBeside axis run.now range.now }
{
    let head = axis.along(run.head());
    let tail = axis.along(run.tail());
    let first = axis.along(range.head());
    let last = axis.along(range.tail());
    axis.across(range.head()) == axis.across(run.head())
        && axis.across(range.tail()) == axis.across(run.tail())
        && ((first == head + 1 && last == tail + 1) || (first + 1 == head && last + 1 == tail))
}

// The pattern of several cells by what moves.
fn pattern_of(head: bool, tail: bool, beside: bool) -> Pattern
    ensures several { result ≢ Single }
    ensures head { head_moves result ≡ head }
    ensures tail { tail_moves result ≡ tail }
    ensures chain { result ≡ Chain ↔ (IsTrue head × IsTrue tail × IsTrue beside) }
{
    match (head, tail) {
        (true, true) if beside => Pattern::Chain,
        (true, true) => Pattern::Rr,
        (true, false) => Pattern::Rf,
        (false, true) => Pattern::Fr,
        (false, false) => Pattern::Ff,
    }
}
