ghost use Rattle.std.specs.Prelude.{◌≡◌, ◌∷◌, [], All, IfOk, IsTrue, OnOk};
ghost use Rattle.sheet_refs.specs.Sizes.{is_inside};
ghost use Rattle.sheet_model.specs.Edits.{replaced_by};
ghost use Rattle.sheet_model.specs.Logs.{after};
ghost use Rattle.sheet_model.specs.Sheets.{IsSheet};
ghost use Rattle.sheet_undo.specs.Found.{AreCellsOf, Follows};
ghost use Rattle.sheet_undo.specs.Undoing.{AreFor, AreWhole};

use crate::entry_cells::EntryCells;
use sheet_model::{Change, Entry, Sheet};
use sheet_refs::Memory;
use std::alloc::Global;

// The cells of some changes, with what they hold in a sheet.
fn held_in_sheet(alloc: Global, sheet: &Sheet, changes: &[Change]) -> Result<Vec<Change>, Memory>
    ensures { IfOk result (λ held. held.items ≡ replaced_by sheet.now changes.now) }
{
    let mut held = Vec::with_capacity(alloc, changes.len())?;
    for change in changes {
        let cell = change.cell;
        let content = sheet.content(cell).copy()?;
        held.push(Change { cell, content })?;
    }
    Ok(held)
}

// Lets the cell of one more change hold what that change says, if it is among them.
fn follow_one(held: &mut Vec<Change>, cells: &EntryCells, change: &Change) -> Result<(), Memory>
    requires cells { AreCellsOf held.old.items cells.now }
    requires inside { IsTrue (is_inside cells.now.sizes change.now.cell) }
    ensures { OnOk result
        (Follows cells.now.sizes (change.now ∷ []) held.old.items held.new.items) }
{
    let Some(place) = cells.find(change.cell) else {
        return Ok(());
    };
    let copy = change.copy()?;
    held[place] = copy;
    Ok(())
}

// Lets cells hold what they hold after some more changes.
fn follow(held: &mut Vec<Change>, cells: &EntryCells, changes: &[Change]) -> Result<(), Memory>
    requires cells { AreCellsOf held.old.items cells.now }
    requires inside { All (λ change. IsTrue (is_inside cells.now.sizes change.cell)) changes.now }
    ensures { OnOk result (Follows cells.now.sizes changes.now held.old.items held.new.items) }
{
    for change in changes {
        follow_one(held, cells, change)?;
    }
    Ok(())
}

/// The cells of an entry, in its order, with what they hold after the entries before it. It looks at each change of
/// these once, and copies those of the entry's cells alone.
pub(crate) fn held_after(
    alloc: Global,
    opening: &Sheet,
    earlier: &[Entry],
    own: &[Change],
    cells: &EntryCells,
) -> Result<Vec<Change>, Memory>
    requires sheet { IsSheet opening.now }
    requires fits { AreFor opening.now earlier.now }
    requires sizes { cells.now.sizes ≡ opening.now.sizes }
    requires cells { AreCellsOf own.now cells.now }
    ensures held { IfOk result
        (λ held. held.items ≡ replaced_by (after opening.now earlier.now) own.now) }
    ensures whole { OnOk result (AreWhole earlier.now) }
{
    let mut held = held_in_sheet(alloc, opening, own)?;
    for entry in earlier {
        follow(&mut held, cells, entry.edit.changes())?;
    }
    Ok(held)
}
