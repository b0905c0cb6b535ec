// How entries come and go.
ghost use Rattle.std.specs.Prelude.{◌≡◌, ◌+◌, ◌≤◌, IfSome, OnOk};
ghost use Rattle.range_index.specs.Entries.{HasId, HasNoId, Inserts, Removes, ChangesRange, SameEntries};
ghost use Rattle.tree_index.specs.declared.notes.Place.TheVariants.{Leaf};
ghost use Rattle.tree_index.specs.Indexes.{HoldTree, entries_in, room_of, node_at};
ghost use Rattle.tree_index.specs.Changes.{Rearranges, Admits, IsNotedAt, note_at, place_noted};

use crate::choices::stays;
use crate::node::TOP;
use crate::nodes::Tree;
use crate::notes::Place;
use crate::rectangles::covers;
use range_index::Item;
use sheet_refs::{Memory, Range};

/// How many nodes are made ready for so many inserts; what finds no node waits for the next `reserve`.
fn nodes_for(inserts: usize) -> usize {
    (inserts / 7).min(80_000).max(inserts / 10) + 32
}

impl Tree {
    /// Adds an entry. It takes no memory.
    pub(crate) fn add(&mut self, id: usize, range: Range)
        requires tree { HoldTree self.old }
        requires absent { HasNoId (entries_in self.old) id }
        requires room { 1 ≤ room_of self.old }
        ensures tree { HoldTree self.new }
        ensures inserted { Inserts (entries_in self.old) (entries_in self.new) id range }
        ensures room { room_of self.old ≤ room_of self.new + 1 }
    {
        match self.leaf_for(range) {
            Some(leaf) => {
                self.put_in_leaf(leaf, id, range);
                self.newest = Item { id: leaf, range };
            }
            None => self.put_late(id, range),
        }
    }

    // Takes a node without children out, or gives another the least rectangle; whether anything has changed.
    fn mend_one(&mut self, key: usize) -> bool
        requires { HoldTree self.old }
        ensures { Rearranges self.old self.new }
    {
        let Some(node) = self.nodes.get(key) else {
            return false;
        };
        if node.children.is_empty() {
            self.drop_node(key);
            true
        } else {
            self.tighten(key)
        }
    }

    // The same from a leaf upwards, as far as anything changes.
    fn mend(&mut self, leaf: usize)
        requires { HoldTree self.old }
        ensures { Rearranges self.old self.new }
    {
        let mut key = leaf;
        for _ in 0..TOP + 1 {
            let Some(node) = self.nodes.get(key) else {
                return;
            };
            let above = node.parent;
            let last = key == self.root;
            if !self.mend_one(key) || last {
                return;
            }
            key = above;
        }
    }

    // Where an id stands.
    fn stands(&self, id: usize) -> Option<Place>
        ensures { result ≡ place_noted (note_at self.now id) }
    {
        match self.notes.get(&id) {
            Some(note) => Some(note.place),
            None => None,
        }
    }

    /// Takes an entry out. It takes no memory.
    pub(crate) fn take_out(&mut self, id: usize)
        requires tree { HoldTree self.old }
        requires there { HasId (entries_in self.old) id }
        ensures tree { HoldTree self.new }
        ensures removed { Removes (entries_in self.old) (entries_in self.new) id }
        ensures room { room_of self.old ≤ room_of self.new }
    {
        let Some(place) = self.stands(id) else {
            return;
        };
        match place {
            Place::Late => self.take_late(id),
            Place::Leaf(leaf) => {
                self.take_from_leaf(leaf, id);
                self.mend(leaf);
            }
        }
    }

    // The range of an id that stands in a leaf, and the leaf.
    fn leaf_of(&self, id: usize) -> Option<(usize, Range)>
        ensures { IfSome result (λ found. IsNotedAt self.now id (Leaf found.0)) }
    {
        let Some(note) = self.notes.get(&id) else {
            return None;
        };
        match note.place {
            Place::Leaf(leaf) => Some((leaf, note.range)),
            Place::Late => None,
        }
    }

    // The leaf of an id where the id is to stay there with a range, which the leaf's rectangle has then, and whether
    // the range before it has cells that it lacks.
    fn leaf_in_reach(&mut self, id: usize, range: Range) -> Option<(usize, bool)>
        requires { HoldTree self.old }
        ensures rest { Rearranges self.old self.new }
        ensures noted { IfSome result (λ found. IsNotedAt self.new id (Leaf found.0)) }
        ensures admits { IfSome result (λ found. Admits (node_at self.new) found.0 range) }
    {
        let Some((leaf, before)) = self.leaf_of(id) else {
            return None;
        };
        if !stays(before, range) {
            return None;
        }
        if self.widen(TOP + 1, leaf, range) {
            Some((leaf, !covers(range, before)))
        } else {
            None
        }
    }

    // Gives an id another range in its leaf, whose rectangle has it, and makes the rectangles as small as they can be.
    fn shrink_in_leaf(&mut self, leaf: usize, id: usize, range: Range)
        requires tree { HoldTree self.old }
        requires there { IsNotedAt self.old id (Leaf leaf) }
        requires admits { Admits (node_at self.old) leaf range }
        ensures tree { HoldTree self.new }
        ensures changed { ChangesRange (entries_in self.old) (entries_in self.new) id range }
        ensures room { room_of self.old ≤ room_of self.new }
    {
        self.change_in_leaf(leaf, id, range);
        self.mend(leaf);
    }

    // Gives an id another range, for which it is taken out and put in again.
    fn replace(&mut self, id: usize, range: Range)
        requires tree { HoldTree self.old }
        requires there { HasId (entries_in self.old) id }
        requires room { 1 ≤ room_of self.old }
        ensures tree { HoldTree self.new }
        ensures changed { ChangesRange (entries_in self.old) (entries_in self.new) id range }
        ensures room { room_of self.old ≤ room_of self.new + 1 }
    {
        self.take_out(id);
        self.add(id, range);
    }

    /// Gives an id another range: in its leaf, if the range is near the one before, and else wherever it fits.
    pub(crate) fn change(&mut self, id: usize, range: Range)
        requires tree { HoldTree self.old }
        requires there { HasId (entries_in self.old) id }
        requires room { 1 ≤ room_of self.old }
        ensures tree { HoldTree self.new }
        ensures changed { ChangesRange (entries_in self.old) (entries_in self.new) id range }
        ensures room { room_of self.old ≤ room_of self.new + 1 }
    {
        let Some((leaf, shrinks)) = self.leaf_in_reach(id, range) else {
            self.replace(id, range);
            return;
        };
        if shrinks {
            self.shrink_in_leaf(leaf, id, range);
        } else {
            self.change_in_leaf(leaf, id, range);
        }
    }

    // Puts the last of the entries that are still to come into the tree, and says whether it found a leaf.
    fn settle_last(&mut self) -> bool
        requires tree { HoldTree self.old }
        ensures tree { HoldTree self.new }
        ensures same { SameEntries (entries_in self.old) (entries_in self.new) }
        ensures room { room_of self.old ≤ room_of self.new }
    {
        let Some(last) = self.late.last().copied() else {
            return false;
        };
        let Some(leaf) = self.leaf_for(last.range) else {
            return false;
        };
        self.settle(leaf, last);
        true
    }

    // Puts entries that are still to come into the tree, as far as there are nodes.
    fn settle_all(&mut self)
        requires tree { HoldTree self.old }
        ensures tree { HoldTree self.new }
        ensures same { SameEntries (entries_in self.old) (entries_in self.new) }
        ensures room { room_of self.old ≤ room_of self.new }
    {
        for _ in 0..self.late.len() {
            if !self.settle_last() {
                return;
            }
        }
    }

    /// Makes room for so many more entries, and puts those that are still to come into the tree.
    pub(crate) fn reserve(&mut self, inserts: usize) -> Result<(), Memory>
        requires tree { HoldTree self.old }
        ensures tree { HoldTree self.new }
        ensures room { OnOk result (inserts ≤ room_of self.new) }
        ensures kept { room_of self.old ≤ room_of self.new }
        ensures same { SameEntries (entries_in self.old) (entries_in self.new) }
    {
        self.notes.reserve(inserts)?;
        self.late.reserve(inserts)?;
        self.nodes.reserve(nodes_for(inserts))?;
        self.settle_all();
        Ok(())
    }
}
