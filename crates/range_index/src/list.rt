// The slow and plain index.
ghost use Rattle.std.specs.Prelude.{◌<◌, MatchOption};
ghost use Rattle.range_index.specs.Entries.{HasNoId, IsPlaceOf};

use crate::index::{InsertOrder, RangeIndex};
use crate::item::Item;
use sheet_refs::{Memory, Range};
use std::alloc::Global;
use std::marker::Model;

/// An index as a list: each query and each removal looks through all of it.
#[derive(Drop)]
pub struct ListIndex {
    slots: Vec<Item>,
}

impl Model for ListIndex {
    ghost use Rattle.std.specs.Prelude.{vec_len, vec_capacity};
    ghost use Rattle.range_index.specs.Entries.{HaveOneRange};
    ghost use Rattle.range_index.specs.Lists.{ListValue, list_value};

    ghost Value = { ListValue };

    ghost view = { λ i. list_value i.slots.items (vec_capacity i.slots) (vec_len i.slots) };

    ghost invariant = { λ i. HaveOneRange i.slots.items };
}

// Where an id stands.
fn entry_place(slots: &[Item], id: usize) -> Option<usize>
    ensures { MatchOption result (HasNoId slots.now id) (IsPlaceOf slots.now id) }
{
    for place in 0..slots.len() {
        let slot = slots[place];
        if slot.id == id {
            return Some(place);
        }
    }
    None
}

impl RangeIndex for ListIndex {
    ghost entries = { λ i. i.entries };

    ghost spare = { λ i. i.spare };

    fn empty(alloc: Global) -> ListIndex {
        ListIndex {
            slots: Vec::new(alloc),
        }
    }

    fn reserve(&mut self, inserts: u32) -> Result<(), Memory> {
        self.slots.reserve(inserts as usize)?;
        Ok(())
    }

    fn set_insert_order(&mut self, order: InsertOrder) {}

    fn insert(&mut self, id: usize, range: Range) {
        self.slots.push_reserved(Item { id, range });
    }

    fn remove(&mut self, id: usize, range: Range) {
        if let Some(place) = entry_place(&self.slots, id) {
            self.slots.swap_remove(place);
        }
    }

    fn change(&mut self, id: usize, from: Range, to: Range) {
        self.remove(id, from);
        self.insert(id, to);
    }

    fn overlapping(&self, q: Range, out: &mut Vec<usize>) -> Result<(), Memory> {
        for slot in &self.slots {
            if slot.range.overlaps(&q) {
                out.push(slot.id)?;
            }
        }
        Ok(())
    }
}
