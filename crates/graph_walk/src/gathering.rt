ghost use Rattle.std.specs.Prelude.{◌≡◌, ◌<◌, ◌≤◌, length, IfSome, OnOk};
ghost use Rattle.graph_walk.specs.Gathers.{Admits, GathersAll, IsUnionOf, IsRunFrom};

use sheet_refs::{Memory, Range, RectSet};

// Adds a range of one cell to a set, and to the waiting ones if it is new. It takes no list for the parts that are new.
fn admit_cell(set: &mut RectSet, waiting: &mut Vec<Range>, range: Range) -> Result<(), Memory>
    requires { range.head ≡ range.tail }
    ensures { OnOk result (Admits set.old set.new waiting.old.items waiting.new.items range) }
{
    let cell = range.head();
    if set.contains(cell) {
        return Ok(());
    }
    // A new cell has a name, of which there are finitely many: so a walk ends.
    let row = cell.row();
    prove!(row >= 1);
    set.add(range)?;
    waiting.push(range)?;
    Ok(())
}

// Adds the cells of a range to a set, and the ranges of those that are new to the waiting ones.
fn admit(set: &mut RectSet, waiting: &mut Vec<Range>, range: Range) -> Result<(), Memory>
    ensures { OnOk result (Admits set.old set.new waiting.old.items waiting.new.items range) }
{
    if range.head() == range.tail() {
        return admit_cell(set, waiting, range);
    }
    let parts = set.new_part(range)?;
    for part in &parts {
        // A part has a cell with a name, of which there are finitely many: so a walk ends.
        let row = part.head().row();
        prove!(row >= 1);
        set.add(*part)?;
        waiting.push(*part)?;
    }
    Ok(())
}

// The range of the cells of two that have the same columns, where the second begins in the first or right below it, and
// doesn't end above it.
fn joined(range: Range, next: Range) -> Option<Range>
    ensures { IfSome result (IsUnionOf range next) }
{
    let (head, tail) = (range.head(), range.tail());
    let (next_head, next_tail) = (next.head(), next.tail());
    if next_head.col() != head.col() || next_tail.col() != tail.col() {
        return None;
    }
    if next_head.row() < head.row() || tail.row() + 1 < next_head.row() {
        return None;
    }
    if next_tail.row() < tail.row() {
        return None;
    }
    Some(Range::of(head, next_tail))
}

// The range of the cells of the ranges from one place of a list on, for as long as each can be joined with those before
// it, and the place behind them.
fn run_from(found: &[Range], from: usize) -> (Range, usize)
    requires { from < length found.now }
    ensures within { (from < result.1) × (result.1 ≤ length found.now) }
    ensures run { IsRunFrom found.now from result.1 result.0 }
{
    let mut run = found[from];
    for place in from + 1..found.len() {
        let Some(longer) = joined(run, found[place]) else {
            return (run, place);
        };
        run = longer;
    }
    (run, found.len())
}

/// Adds the cells of some ranges to a set, and the ranges of those that are new to the waiting ones. Ranges of the same
/// columns that follow one another in the list are joined first: the set is searched once for them, and a walk asks
/// once for what is new in them.
pub fn gather(set: &mut RectSet, waiting: &mut Vec<Range>, found: &[Range]) -> Result<(), Memory>
    ensures { OnOk result
        (GathersAll set.old set.new waiting.old.items waiting.new.items found.now) }
{
    let mut place = 0;
    while place < found.len() {
        let (run, end) = run_from(found, place);
        admit(set, waiting, run)?;
        place = end;
    }
    Ok(())
}
