ghost use Rattle.std.specs.Prelude.{IsTrue, MatchOption, All, IsNone};
ghost use Rattle.sheet_refs.specs.Sizes.{is_inside};
ghost use Rattle.sheet_undo.specs.Found.{AreCellsOf, IsFirstSharer, SharesNone};
ghost use Rattle.sheet_undo.specs.Undoing.{AreWhole, IsFirstAmong, ShareACell, changed_cells};

use crate::entry_cells::EntryCells;
use sheet_model::{Change, Entry};
use sheet_refs::Cell;

/// A later entry that changes a cell of an entry.
#[derive(Drop)]
pub(crate) struct Overtaker {
    /// Its place among the later ones, counted from 0.
    pub(crate) place: usize,
    /// The first of the entry's cells, in the entry's order, that it changes.
    pub(crate) cell: Cell,
}

// The first of an entry's cells, in its order, that other changes change.
fn first_shared(cells: &EntryCells, own: &[Change], others: &[Change]) -> Option<Cell>
    requires cells { AreCellsOf own.now cells.now }
    requires inside { All (λ change. IsTrue (is_inside cells.now.sizes change.cell)) others.now }
    ensures { MatchOption result (¬ ShareACell own.now others.now)
        (IsFirstAmong (changed_cells others.now) (changed_cells own.now)) }
{
    let mut first = own.len();
    for change in others {
        if let Some(place) = cells.find(change.cell) {
            first = first.min(place);
        }
    }
    if first >= own.len() {
        return None;
    }
    let change = &own[first];
    Some(change.cell)
}

/// The first of later entries that changes a cell of an entry. It looks at each change of the later entries once.
pub(crate) fn first_overtaker(
    cells: &EntryCells,
    own: &[Change],
    later: &[Entry],
) -> Option<Overtaker>
    requires cells { AreCellsOf own.now cells.now }
    requires inside { All (λ entry.
        All (λ change. IsTrue (is_inside cells.now.sizes change.cell)) entry.edit) later.now }
    ensures found { MatchOption result (SharesNone own.now later.now)
        (IsFirstSharer own.now later.now) }
    ensures whole { IsNone result → AreWhole later.now }
{
    for place in 0..later.len() {
        if let Some(cell) = first_shared(cells, own, later[place].edit.changes()) {
            return Some(Overtaker { place, cell });
        }
    }
    None
}
