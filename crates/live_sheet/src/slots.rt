ghost use Rattle.std.specs.Prelude.{IfOk, IfSome};
ghost use Rattle.live_sheet.specs.Stored.{AreEmpty, IsFound, IsInSlot, StoresOne};

use crate::stored::Stored;
use sheet_refs::{Cell, Memory};
use std::alloc::Global;

/// In how many slots a cell may be.
const NEAR: usize = 8;

/// So many empty slots.
pub(crate) fn empty_slots(alloc: Global, count: usize) -> Result<Vec<Option<Stored>>, Memory>
    ensures { IfOk result (λ slots. AreEmpty slots.items) }
{
    let mut slots = Vec::with_capacity(alloc, count)?;
    for _ in 0..count {
        slots.push(None)?;
    }
    Ok(slots)
}

/// The first of the slots in which a cell may be. Cells beside one another, or below, begin at different ones.
fn first_slot(count: usize, cell: Cell) -> usize {
    if count == 0 {
        return 0;
    }
    let row = cell.row().wrapping_mul(0x9e37_79b9);
    let col = cell.col().wrapping_mul(0x85eb_ca6b);
    (row.wrapping_add(col) >> 16) as usize % count
}

/// Whether a cell may take a slot: it is empty, has that cell, or what stood in a cell after another number of entries.
fn may_take(slot: &Option<Stored>, cell: Cell, count: u64) -> bool {
    match slot {
        Some(stored) => stored.count != count || stored.cell == cell,
        None => true,
    }
}

/// The slot of a cell: the first that it may take, or else the first one.
fn slot_of(slots: &[Option<Stored>], cell: Cell, count: u64) -> usize {
    let first = first_slot(slots.len(), cell);
    for at in first..slots.len().min(first.saturating_add(NEAR)) {
        if may_take(&slots[at], cell, count) {
            return at;
        }
    }
    first
}

/// What a slot has of a cell after so many entries.
fn in_slot(slot: &Option<Stored>, cell: Cell, count: u64) -> Option<&Stored>
    ensures { IfSome result (λ stored. IsInSlot slot.now cell count stored.now) }
{
    match slot {
        Some(stored) if stored.cell == cell && stored.count == count => Some(stored),
        _ => None,
    }
}

/// What is stored of a cell after so many entries.
pub(crate) fn find(slots: &[Option<Stored>], cell: Cell, count: u64) -> Option<&Stored>
    ensures { IfSome result (λ stored. IsFound slots.now cell count stored.now) }
{
    let at = slot_of(slots, cell, count);
    if at >= slots.len() {
        return None;
    }
    in_slot(&slots[at], cell, count)
}

/// Stores what stands in a cell, in its slot.
pub(crate) fn put(slots: &mut Vec<Option<Stored>>, stored: Stored)
    ensures { StoresOne slots.old.items stored slots.new.items }
{
    let at = slot_of(slots.as_slice(), stored.cell, stored.count);
    if at < slots.len() {
        slots[at] = Some(stored);
    }
}
