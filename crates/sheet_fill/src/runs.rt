// The edge of a run of cells that is filled with the reference of its first cell.
ghost use Rattle.std.specs.Prelude.{◌≡◌, ◌<◌, IsSome, MatchOption, None, Some};
ghost use Rattle.sheet_refs.specs.Ends.{IsReference};
ghost use Rattle.sheet_refs.specs.Names.{Finds};
ghost use Rattle.edge_patterns.specs.Axes.{IsLine, axis_of};
ghost use Rattle.edge_patterns.specs.Edges.{IsRange};
ghost use Rattle.sheet_fill.specs.FilledRuns.{IsFilledEdge, KeepsOrder, StaysNamed};
ghost use Rattle.sheet_fill.specs.FilledRuns.{cell_count_of, reference_along};
ghost use Rattle.sheet_fill.specs.Singles.{IsSingleAt};

use edge_patterns::{Edge, join};
use formula_syntax::shift_reference;
use sheet_refs::{Range, Ref};

// The reference of the cell of a run with this index, counted from 0, where that of the first cell is filled along it.
fn reference_at(run: &Range, reference: &Ref, index: u32) -> Option<Ref>
    requires { index < cell_count_of run.now }
    ensures { result ≡ reference_along (axis_of run.now) index reference.now }
{
    let column = run.head().col() == run.tail().col();
    let steps = index as i32;
    if column {
        shift_reference(reference, steps, 0)
    } else {
        shift_reference(reference, 0, steps)
    }
}

// The edge of the cell of a run with this index and of its range.
fn edge_at(run: &Range, reference: &Ref, index: u32) -> Option<Edge>
    requires line { IsLine (axis_of run.now) run.now }
    requires within { index < cell_count_of run.now }
    ensures { MatchOption result
        (reference_along (axis_of run.now) index reference.now ≡ None)
        (IsSingleAt run.now reference.now index) }
{
    let moved = reference_at(run, reference, index)?;
    let cell = run.cell_at(u64::from(index));
    let edge = Edge::single(cell, moved.range());
    // Says that it is an edge.
    let _ = edge.dep();
    Some(edge)
}

// Tells the proofs around it that the cells of a run, and the ends of a reference, have names and are in order; it does
// nothing.
fn check_kept(run: &Range, reference: &Ref)
    ensures run { IsRange run.now }
    ensures reference { IsReference reference.now.head reference.now.tail reference.now.single }
{
    let _ = run.head().row();
    let _ = run.tail().row();
    let _ = reference.head();
}

/// The edge of a run of cells, one cell wide, that is filled with the reference of its first cell: each cell's range is
/// that of the reference, moved by as many steps as the cell is from the first. A single cell counts as vertical.
///
/// None exactly where a part of the reference leaves the names A1 to XFD1048576, or no edge has just these pairs; so it
/// is there wherever the reference stays within the names and its two ends keep their order along the run. It takes no
/// memory, and the time of a join for each cell.
pub fn filled_edge(run: Range, reference: &Ref) -> Option<Edge>
    requires { IsLine (axis_of run) run }
    ensures exact { Finds result (IsFilledEdge run reference.now) }
    ensures there { StaysNamed run reference.now → KeepsOrder run reference.now → IsSome result }
{
    check_kept(&run, reference);
    let mut edge = edge_at(&run, reference, 0)?;
    for index in 1..run.cells() as u32 {
        let next = edge_at(&run, reference, index)?;
        edge = join(&edge, &next)?;
    }
    Some(edge)
}
