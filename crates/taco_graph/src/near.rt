// Which edges lie too far from one another to be joined.
ghost use Rattle.std.specs.Prelude.{◌≤◌, ◌↔◌, IsFalse, IsTrue};
ghost use Rattle.edge_patterns.specs.Joins.{CanBeJoined};
ghost use Rattle.edge_patterns.specs.declared.axis.Axis.TheVariants.{Down, Right};
ghost use Rattle.taco_graph.specs.Near.{AreWithin, LieNear};

use edge_patterns::Edge;

// Whether two coordinates are less than so many cells apart.
fn are_within(a: u32, b: u32, cells: u32) -> bool
    requires small { (a ≤ 1048576) × (b ≤ 1048576) }
    requires few { cells ≤ 2097152 }
    ensures { IsTrue result ↔ AreWithin a b cells }
{
    a < b + cells && b < a + cells
}

// Whether the rectangles of two edges lie as those of edges down one column do that can be joined.
fn lie_near_down(a: &Edge, b: &Edge) -> bool
    ensures { LieNear Down a.now b.now → IsTrue result }
{
    let (one, other) = (a.prec(), b.prec());
    if one.head().col() != other.head().col() || one.tail().col() != other.tail().col() {
        return false;
    }
    let (run, next) = (a.dep(), b.dep());
    let cells = run.tail().row() + 1 - run.head().row()
        + (next.tail().row() + 1 - next.head().row());
    are_within(one.head().row(), other.head().row(), cells)
        && are_within(one.tail().row(), other.tail().row(), cells)
}

// Whether the rectangles of two edges lie as those of edges along one row do that can be joined.
fn lie_near_right(a: &Edge, b: &Edge) -> bool
    ensures { LieNear Right a.now b.now → IsTrue result }
{
    let (one, other) = (a.prec(), b.prec());
    if one.head().row() != other.head().row() || one.tail().row() != other.tail().row() {
        return false;
    }
    let (run, next) = (a.dep(), b.dep());
    let cells = run.tail().col() + 1 - run.head().col()
        + (next.tail().col() + 1 - next.head().col());
    are_within(one.head().col(), other.head().col(), cells)
        && are_within(one.tail().col(), other.tail().col(), cells)
}

/// Whether the rectangles of two edges lie so near one another that the edges may be joined.
pub(crate) fn lie_near(a: &Edge, b: &Edge) -> bool
    ensures { IsFalse result → ¬ CanBeJoined a.now b.now }
{
    // That both are edges is said by a part of each.
    let _ = (a.dep(), b.dep());
    if lie_near_down(a, b) {
        return true;
    }
    lie_near_right(a, b)
}
