// How entries come and go.
ghost use Rattle.std.specs.Prelude.{◌≡◌, ◌+◌, ◌-◌, ◌<◌, ◌≤◌, IsSome, OnOk, Some};
ghost use Rattle.std.specs.HashMap.{ContainsKey, IsUnique, Updates, spare};
ghost use Rattle.range_index.specs.Grids.{HoldGrid, count_at, entry_at, entries_in, room_of, stands_at};
ghost use Rattle.range_index.specs.Changes.{PutsAt, SetsCount, TakesLast, last_slot};
ghost use Rattle.range_index.specs.Entries.{HasId, HasNoId, Inserts, Removes, ChangesRange, SameEntries};

use crate::item::Item;
use crate::tables::Tables;
use crate::tiles::{Home, Slot, home_of};
use sheet_refs::{Memory, Range};
use std::collections::HashMap;
use std::hash::Hash;

// Gives a key of a map another value. It takes no memory.
fn write<K: Eq + Hash + Drop, V: Drop>(map: &mut HashMap<K, V>, key: K, value: V)
    requires { ContainsKey K.eq map.old key }
    ensures written { Updates K.eq map.old map.new key (Some value) }
    ensures room { spare map.new ≡ spare map.old }
    ensures unique { IsUnique K.eq map.new }
{
    if let Some(old) = map.get_mut(&key) {
        *old = value;
    }
}

impl Tables {
    /// Adds an entry at the place behind those of its home. It takes no memory.
    pub(crate) fn add(&mut self, id: usize, range: Range)
        requires grid { HoldGrid self.old }
        requires absent { HasNoId (entries_in self.old) id }
        requires room { 1 ≤ room_of self.old }
        ensures grid { HoldGrid self.new }
        ensures inserted { Inserts (entries_in self.old) (entries_in self.new) id range }
        ensures room { room_of self.old ≤ room_of self.new + 1 }
    {
        let home = home_of(range);
        let (place, all) = (self.count(home), self.items.len());
        // No home has more entries than there are.
        prove!(place <= all);
        let slot = Slot { home, place };
        // There is room, so that these can't fail.
        let _ = self.items.insert(slot, Item { id, range });
        let _ = self.counts.insert(home, place + 1);
        let _ = self.slots.insert(id, slot);
        self.tallest = self.tallest.max(home.height);
        self.widest = self.widest.max(home.width);
    }

    // Gives a home a lower count. A home without entries has none.
    fn lower_count(&mut self, home: Home, count: usize)
        requires { 0 < count_at self.old home }
        ensures { SetsCount self.old self.new home count }
    {
        if count == 0 {
            self.counts.remove(&home);
        } else {
            write(&mut self.counts, home, count);
        }
    }

    // Takes out what stands at the last place of a home.
    fn take_last(&mut self, home: Home) -> Option<Item>
        requires { 0 < count_at self.old home }
        ensures item { result ≡ entry_at self.old (last_slot self.old home) }
        ensures taken { TakesLast self.old self.new home }
    {
        let place = self.count(home) - 1;
        self.lower_count(home, place);
        self.items.remove(&Slot { home, place })
    }

    // Puts an entry that stands elsewhere in the place of another.
    fn put_at(&mut self, slot: Slot, item: Item)
        requires slot { IsSome (entry_at self.old slot) }
        requires id { IsSome (stands_at self.old item.id) }
        ensures { PutsAt self.old self.new slot item }
    {
        write(&mut self.items, slot, item);
        write(&mut self.slots, item.id, slot);
    }

    /// Takes an id out, in the place of which the last entry of its home goes. It takes no memory.
    pub(crate) fn take_out(&mut self, id: usize)
        requires grid { HoldGrid self.old }
        requires there { HasId (entries_in self.old) id }
        ensures grid { HoldGrid self.new }
        ensures removed { Removes (entries_in self.old) (entries_in self.new) id }
        ensures room { room_of self.old ≤ room_of self.new }
    {
        let Some(slot) = self.slots.remove(&id) else {
            return;
        };
        let Some(last) = self.take_last(slot.home) else {
            return;
        };
        if last.id != id {
            self.put_at(slot, last);
        }
    }

    // Where an id stands.
    fn stands(&self, id: usize) -> Option<Slot>
        ensures { result ≡ stands_at self.now id }
    {
        match self.slots.get(&id) {
            Some(slot) => Some(*slot),
            None => None,
        }
    }

    /// Gives an id another range. At the home where the id stands it takes one look-up and one write.
    pub(crate) fn change(&mut self, id: usize, range: Range)
        requires grid { HoldGrid self.old }
        requires there { HasId (entries_in self.old) id }
        requires room { 1 ≤ room_of self.old }
        ensures grid { HoldGrid self.new }
        ensures changed { ChangesRange (entries_in self.old) (entries_in self.new) id range }
        ensures room { room_of self.old ≤ room_of self.new + 1 }
    {
        let Some(slot) = self.stands(id) else {
            return;
        };
        if slot.home == home_of(range) {
            write(&mut self.items, slot, Item { id, range });
        } else {
            self.take_out(id);
            self.add(id, range);
        }
    }

    /// Makes room for so many more entries.
    pub(crate) fn reserve(&mut self, inserts: usize) -> Result<(), Memory>
        requires grid { HoldGrid self.old }
        ensures grid { HoldGrid self.new }
        ensures room { OnOk result (inserts ≤ room_of self.new) }
        ensures kept { room_of self.old ≤ room_of self.new }
        ensures same { SameEntries (entries_in self.old) (entries_in self.new) }
    {
        self.items.reserve(inserts)?;
        self.counts.reserve(inserts)?;
        self.slots.reserve(inserts)?;
        Ok(())
    }
}
