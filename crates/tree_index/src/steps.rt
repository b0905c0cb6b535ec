// The steps that change a tree; each leaves a tree behind, with the same entries but where it says otherwise.
ghost use Rattle.std.specs.Prelude.{◌≡◌, ◌+◌, ◌≤◌, None, IfSome, IfNone};
ghost use Rattle.range_index.specs.Entries.{HasNoId, Inserts, Removes, ChangesRange, SameEntries};
ghost use Rattle.tree_index.specs.declared.notes.Place.TheVariants.{Leaf, Late};
ghost use Rattle.tree_index.specs.Indexes.{HoldTree, entries_in, room_of, node_at};
ghost use Rattle.tree_index.specs.Changes.{Rearranges, Admits, HasPlace, HasNoChild, MayShare};
ghost use Rattle.tree_index.specs.Changes.{KeepsNode, KeepAllNodes, KeepNodesBut};
ghost use Rattle.tree_index.specs.Changes.{EndsWith, IsBeside, IsNotedAt, TakesIn};

use crate::node::TOP;
use crate::nodes::{Tree, place_of};
use crate::notes::{Note, Place};
use crate::rectangles::span_of_all;
use range_index::Item;
use sheet_refs::Range;

impl Tree {
    /// Makes a root without children, where there is none and there is room.
    pub(crate) fn plant(&mut self) -> Option<usize>
        requires tree { HoldTree self.old }
        requires none { node_at self.old self.old.root ≡ None }
        ensures rest { Rearranges self.old self.new }
        ensures place { IfSome result (HasPlace self.new) }
        ensures root { IfSome result (λ key. key ≡ self.new.root) }
    {
        let Some(key) = self.make_node(0, 0) else {
            return None;
        };
        self.root = key;
        Some(key)
    }

    /// Makes a new root above the old one, where there is room and it isn't too high.
    pub(crate) fn grow(&mut self) -> Option<usize>
        requires tree { HoldTree self.old }
        ensures rest { Rearranges self.old self.new }
        ensures root { IfSome result (λ key. key ≡ self.new.root) }
    {
        let old = self.root;
        let Some(node) = self.nodes.get(old) else {
            return None;
        };
        let level = node.level;
        let Some(range) = span_of_all(node.children.as_slice()) else {
            return None;
        };
        if level >= TOP {
            return None;
        }
        let Some(root) = self.make_node(level + 1, 0) else {
            return None;
        };
        self.push_child(root, Item { id: old, range });
        self.set_parent(old, root);
        self.root = root;
        Some(root)
    }

    /// Makes a node without children beside the child at a place of a node that has room, with the same rectangle.
    pub(crate) fn make_beside(&mut self, above: usize, place: usize) -> Option<usize>
        requires tree { HoldTree self.old }
        ensures rest { Rearranges self.old self.new }
        ensures above { KeepsNode self.old self.new above }
        ensures beside { IfSome result (IsBeside self.old self.new above place) }
        ensures none { IfNone result (self.new ≡ self.old) }
    {
        let Some(node) = self.nodes.get(above) else {
            return None;
        };
        let level = node.level;
        if level == 0 {
            return None;
        }
        if self.is_full(above) {
            return None;
        }
        let Some(child) = self.child_at(above, place) else {
            return None;
        };
        let Some(key) = self.make_node(level - 1, above) else {
            return None;
        };
        let range = child.range;
        self.push_child(above, Item { id: key, range });
        Some(key)
    }

    // Moves the child at a place of a leaf to another that has room.
    pub(crate) fn move_entry(&mut self, from: usize, place: usize, to: usize)
        requires tree { HoldTree self.old }
        requires may { MayShare self.old 0 from to }
        ensures rest { Rearranges self.old self.new }
        ensures nodes { KeepAllNodes self.old self.new }
        ensures may { MayShare self.new 0 from to }
    {
        let Some(child) = self.take_child(from, place) else {
            return;
        };
        self.push_child(to, child);
        self.note(child, Place::Leaf(to));
    }

    // Moves the child at a place of a node above the leaves to another of its level that has room.
    pub(crate) fn move_node(&mut self, level: u32, from: usize, place: usize, to: usize)
        requires tree { HoldTree self.old }
        requires may { MayShare self.old level from to }
        requires inner { 1 ≤ level }
        ensures rest { Rearranges self.old self.new }
        ensures nodes { KeepAllNodes self.old self.new }
        ensures may { MayShare self.new level from to }
    {
        let Some(child) = self.take_child(from, place) else {
            return;
        };
        self.push_child(to, child);
        self.set_parent(child.id, to);
    }

    /// Gives a node that has children the least rectangle that has them all, and says whether it had another.
    pub(crate) fn tighten(&mut self, key: usize) -> bool
        requires tree { HoldTree self.old }
        ensures rest { Rearranges self.old self.new }
        ensures nodes { KeepNodesBut self.old self.new key }
    {
        let Some((above, place)) = self.place_above(key) else {
            return false;
        };
        let Some(child) = self.child_at(above, place) else {
            return false;
        };
        let Some(node) = self.nodes.get(key) else {
            return false;
        };
        let Some(range) = span_of_all(node.children.as_slice()) else {
            return false;
        };
        if child.range == range {
            return false;
        }
        self.set_range(above, place, range);
        true
    }

    // Takes the root out of the tree, which has no children.
    fn drop_root(&mut self)
        requires tree { HoldTree self.old }
        requires none { HasNoChild self.old self.old.root }
        ensures { Rearranges self.old self.new }
    {
        self.nodes.try_remove(self.root);
    }

    // Takes another node out, which has none.
    fn drop_below(&mut self, key: usize)
        requires tree { HoldTree self.old }
        requires none { HasNoChild self.old key }
        ensures { Rearranges self.old self.new }
    {
        let Some((above, place)) = self.place_above(key) else {
            return;
        };
        self.take_child(above, place);
        self.nodes.try_remove(key);
    }

    /// Takes a node without children out of the tree.
    pub(crate) fn drop_node(&mut self, key: usize)
        requires tree { HoldTree self.old }
        requires none { HasNoChild self.old key }
        ensures { Rearranges self.old self.new }
    {
        if key == self.root {
            self.drop_root();
        } else {
            self.drop_below(key);
        }
    }

    /// Puts an entry that isn't there into a leaf that has room.
    pub(crate) fn put_in_leaf(&mut self, leaf: usize, id: usize, range: Range)
        requires tree { HoldTree self.old }
        requires absent { HasNoId (entries_in self.old) id }
        requires room { 1 ≤ room_of self.old }
        requires leaf { TakesIn self.old leaf range }
        ensures tree { HoldTree self.new }
        ensures inserted { Inserts (entries_in self.old) (entries_in self.new) id range }
        ensures room { room_of self.old ≤ room_of self.new + 1 }
    {
        self.push_child(leaf, Item { id, range });
        let place = Place::Leaf(leaf);
        // There is room, so that this can't fail.
        let _ = self.notes.insert(id, Note { range, place });
    }

    /// Takes an entry out of its leaf.
    pub(crate) fn take_from_leaf(&mut self, leaf: usize, id: usize)
        requires tree { HoldTree self.old }
        requires there { IsNotedAt self.old id (Leaf leaf) }
        ensures tree { HoldTree self.new }
        ensures removed { Removes (entries_in self.old) (entries_in self.new) id }
        ensures room { room_of self.old ≤ room_of self.new }
    {
        let Some(node) = self.nodes.get(leaf) else {
            return;
        };
        let Some(place) = place_of(node.children.as_slice(), id) else {
            return;
        };
        self.take_child(leaf, place);
        self.notes.remove(&id);
    }

    /// Gives an entry another range in its leaf, whose rectangle has it.
    pub(crate) fn change_in_leaf(&mut self, leaf: usize, id: usize, range: Range)
        requires tree { HoldTree self.old }
        requires there { IsNotedAt self.old id (Leaf leaf) }
        requires admits { Admits (node_at self.old) leaf range }
        ensures tree { HoldTree self.new }
        ensures changed { ChangesRange (entries_in self.old) (entries_in self.new) id range }
        ensures room { room_of self.old ≤ room_of self.new }
    {
        let Some(node) = self.nodes.get(leaf) else {
            return;
        };
        let Some(place) = place_of(node.children.as_slice(), id) else {
            return;
        };
        self.set_range(leaf, place, range);
        self.note(Item { id, range }, Place::Leaf(leaf));
    }

    /// Puts an entry that isn't there behind those that are still to come.
    pub(crate) fn put_late(&mut self, id: usize, range: Range)
        requires tree { HoldTree self.old }
        requires absent { HasNoId (entries_in self.old) id }
        requires room { 1 ≤ room_of self.old }
        ensures tree { HoldTree self.new }
        ensures inserted { Inserts (entries_in self.old) (entries_in self.new) id range }
        ensures room { room_of self.old ≤ room_of self.new + 1 }
    {
        self.late.push_reserved(Item { id, range });
        let place = Place::Late;
        // There is room, so that this can't fail.
        let _ = self.notes.insert(id, Note { range, place });
    }

    /// Takes an entry out of those that are still to come.
    pub(crate) fn take_late(&mut self, id: usize)
        requires tree { HoldTree self.old }
        requires there { IsNotedAt self.old id Late }
        ensures tree { HoldTree self.new }
        ensures removed { Removes (entries_in self.old) (entries_in self.new) id }
        ensures room { room_of self.old ≤ room_of self.new }
    {
        let Some(place) = place_of(self.late.as_slice(), id) else {
            return;
        };
        self.late.swap_remove(place);
        self.notes.remove(&id);
    }

    /// Moves the last of the entries that are still to come into a leaf that takes it in.
    pub(crate) fn settle(&mut self, leaf: usize, last: Item)
        requires tree { HoldTree self.old }
        requires last { EndsWith self.old.late.items last }
        requires leaf { TakesIn self.old leaf last.range }
        ensures tree { HoldTree self.new }
        ensures same { SameEntries (entries_in self.old) (entries_in self.new) }
        ensures room { room_of self.old ≤ room_of self.new }
    {
        self.late.pop();
        self.push_child(leaf, last);
        self.note(last, Place::Leaf(leaf));
    }
}
