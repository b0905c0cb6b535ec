ghost use Rattle.std.specs.Prelude.{◌≡◌, ◌≢◌, ◌↔◌, ℕ, Err, IfOk};
ghost use Rattle.sheet_refs.specs.Cells.{Position};
ghost use Rattle.sheet_model.specs.Edits.{IsFor};
ghost use Rattle.sheet_undo.specs.Undoing.{AreFor, HasNoEntry, IsOvertaken, IsRedone};
ghost use Rattle.sheet_undo.specs.Undoing.{Restores, Undoes};
ghost use Rattle.sheet_undo.specs.declared.refused.UndoRefused.TheVariants as refused;

use crate::entry_cells::EntryCells;
use crate::overtaking::first_overtaker;
use crate::refused::UndoRefused;
use crate::replaying::held_after;
use sheet_model::{Edit, Entry, Sheet};
use std::alloc::Global;

/// The edit that undoes the entry of a number, counted from 1, in a log over an opening sheet: the entry's cells, in
/// its order, each with what it held before that entry.
///
/// Made after the log it gives these cells their old contents and leaves all others as they are; so where the entry
/// is the last one, every content and every value is as before it. As one more entry of the log it is undone by what
/// the entry did.
///
/// It is refused with `NoSuchEdit` exactly where the number is 0 or above the length of the log, and else, unless there
/// is no memory, with `Overtaken` exactly where a later entry changes a cell of this one.
///
/// It goes over the log once, the entries after this one first, and looks up the cell of each change among those of
/// the one entry. It takes the memory of one edit and of a map of its cells, and copies no sheet.
pub fn inverse(
    alloc: Global,
    opening: &Sheet,
    log: &[Entry],
    number: u64,
) -> Result<Edit, UndoRefused>
    requires { AreFor opening.now log.now }
    ensures undoes { IfOk result (Undoes opening.now log.now number) }
    ensures restores { IfOk result (Restores opening.now log.now number) }
    ensures redone { IfOk result (IsRedone opening.now log.now number) }
    ensures fits { IfOk result (IsFor opening.now) }
    ensures no_such_edit { (count : ℕ)
        → result ≡ Err (refused.NoSuchEdit count) ↔ HasNoEntry log.now number count }
    ensures overtaken { (by : ℕ) (cell : Position) → result ≢ Err refused.Memory
        → (result ≡ Err (refused.Overtaken by cell) ↔ IsOvertaken log.now number by cell) }
{
    let length = log.len() as u64;
    if number == 0 || number > length {
        return Err(UndoRefused::NoSuchEdit { length });
    }
    let place = (number - 1) as usize;
    let own = log[place].edit.changes();
    let cells = EntryCells::of(alloc, opening, own)?;
    if let Some(found) = first_overtaker(&cells, own, &log[place + 1..]) {
        return Err(UndoRefused::Overtaken {
            by: number + 1 + found.place as u64,
            cell: found.cell,
        });
    }
    let held = held_after(alloc, opening, &log[..place], own, &cells)?;
    Ok(Edit::of(held).unwrap())
}
