// The way down to a leaf.
ghost use Rattle.std.specs.Prelude.{◌≡◌, ◌<◌, IsTrue, IfSome};
ghost use Rattle.tree_index.specs.Indexes.{HoldTree, node_at};
ghost use Rattle.tree_index.specs.Changes.{Rearranges, Admits, HasPlace, HasPlaceBelow, IsInner, IsOpenLeaf, TakesIn};

use crate::choices::{grows_less, is_next, place_for};
use crate::node::TOP;
use crate::nodes::Tree;
use crate::rectangles::{covers, span};
use sheet_refs::Range;

impl Tree {
    // Puts a new root above the old one, and splits that in halves.
    fn raise(&mut self, added: Range)
        requires { HoldTree self.old }
        ensures { Rearranges self.old self.new }
    {
        if let Some(root) = self.grow() {
            self.split(root, 0, added);
        }
    }

    // Makes a root where there is none, or raises a full one.
    fn open_root(&mut self, added: Range)
        requires { HoldTree self.old }
        ensures { Rearranges self.old self.new }
    {
        if self.nodes.get(self.root).is_none() {
            self.plant();
        } else if self.is_full(self.root) {
            self.raise(added);
        }
    }

    // The place of the last child of a node.
    fn last_place(&self, key: usize) -> usize {
        match self.nodes.get(key) {
            Some(node) => node.children.len().saturating_sub(1),
            None => 0,
        }
    }

    // The better of two children of a node for a range, by their places.
    fn better_of(&self, key: usize, one: usize, other: usize, range: Range) -> usize {
        let Some(first) = self.child_at(key, one) else {
            return other;
        };
        let Some(second) = self.child_at(key, other) else {
            return one;
        };
        if grows_less(second.range, first.range, range) {
            other
        } else {
            one
        }
    }

    // The place of a node's child, if that has room for a child.
    fn place_if_room(&self, key: usize, place: usize) -> Option<usize>
        ensures { IfSome result (HasPlaceBelow self.now key) }
    {
        let Some(child) = self.child_at(key, place) else {
            return None;
        };
        if self.is_full(child.id) {
            return None;
        }
        Some(place)
    }

    // Splits a node's child, and gives the place of the better half for a range, if that has room for a child.
    fn place_after_split(&mut self, key: usize, place: usize, range: Range) -> Option<usize>
        requires tree { HoldTree self.old }
        requires admits { Admits (node_at self.old) key range }
        ensures rest { Rearranges self.old self.new }
        ensures below { IfSome result (HasPlaceBelow self.new key) }
        ensures admits { Admits (node_at self.new) key range }
        ensures level { IsInner self.old key → IsInner self.new key }
    {
        self.split(key, place, range);
        let last = self.last_place(key);
        let better = self.better_of(key, place, last, range);
        self.place_if_room(key, better)
    }

    // The place of the child of a node that is to take a range in, with room for a child.
    fn place_with_room(&mut self, key: usize, range: Range) -> Option<usize>
        requires tree { HoldTree self.old }
        requires admits { Admits (node_at self.old) key range }
        ensures rest { Rearranges self.old self.new }
        ensures below { IfSome result (HasPlaceBelow self.new key) }
        ensures admits { Admits (node_at self.new) key range }
        ensures level { IsInner self.old key → IsInner self.new key }
    {
        let Some(node) = self.nodes.get(key) else {
            return None;
        };
        let place = place_for(self.order, node.children.as_slice(), range);
        match self.place_if_room(key, place) {
            Some(place) => Some(place),
            None => self.place_after_split(key, place, range),
        }
    }

    // The child of a node that is to take a range in: it has room, and its rectangle has the range.
    fn step_down(&mut self, key: usize, range: Range) -> Option<usize>
        requires tree { HoldTree self.old }
        requires inner { IsInner self.old key }
        requires admits { Admits (node_at self.old) key range }
        ensures rest { Rearranges self.old self.new }
        ensures place { IfSome result (HasPlace self.new) }
        ensures admits { IfSome result (λ below. Admits (node_at self.new) below range) }
    {
        let Some(place) = self.place_with_room(key, range) else {
            return None;
        };
        let Some(child) = self.child_at(key, place) else {
            return None;
        };
        if covers(child.range, range) {
            return Some(child.id);
        }
        self.set_range(key, place, span(child.range, range));
        Some(child.id)
    }

    // Whether a node is there, above the leaves.
    fn is_inner(&self, key: usize) -> bool
        ensures { IsTrue result → IsInner self.now key }
    {
        match self.nodes.get(key) {
            Some(node) => node.level > 0,
            None => false,
        }
    }

    // Widens the rectangle of the child under a key, if it is at a place of a node, so that it has a range, which the
    // node's own has; whether it is there.
    fn widen_child(&mut self, above: usize, place: usize, key: usize, range: Range) -> bool
        requires tree { HoldTree self.old }
        requires admits { Admits (node_at self.old) above range }
        ensures rest { Rearranges self.old self.new }
        ensures notes { self.new.notes ≡ self.old.notes }
        ensures admits { IsTrue result → Admits (node_at self.new) key range }
    {
        if !self.is_inner(above) {
            return false;
        }
        let Some(child) = self.child_at(above, place) else {
            return false;
        };
        if child.id != key {
            return false;
        }
        self.set_range(above, place, span(child.range, range));
        true
    }

    /// Widens the rectangle of a node so that it has a range, and those above it first, up to so many levels; whether
    /// it has the range.
    pub(crate) fn widen(&mut self, levels: u32, key: usize, range: Range) -> bool
        requires tree { HoldTree self.old }
        ensures rest { Rearranges self.old self.new }
        ensures notes { self.new.notes ≡ self.old.notes }
        ensures admits { IsTrue result → Admits (node_at self.new) key range }
    {
        if self.is_root(key) {
            return true;
        }
        let Some((above, place)) = self.place_above(key) else {
            return false;
        };
        if self.child_admits(above, place, key, range) {
            return true;
        }
        if levels == 0 {
            return false;
        }
        if !self.widen(levels - 1, above, range) {
            return false;
        }
        self.widen_child(above, place, key, range)
    }

    // Whether a node is a leaf with room.
    fn is_open_leaf(&self, key: usize) -> bool
        ensures { IsTrue result → IsOpenLeaf self.now key }
    {
        match self.nodes.get(key) {
            Some(node) => node.level == 0 && !node.children.is_full(),
            None => false,
        }
    }

    // The leaf that the newest entry went into, where the range is next to that entry's and the leaf has room: its
    // rectangle has the range then.
    fn leaf_again(&mut self, range: Range) -> Option<usize>
        requires tree { HoldTree self.old }
        ensures rest { Rearranges self.old self.new }
        ensures leaf { IfSome result (λ key. TakesIn self.new key range) }
    {
        let leaf = self.newest.id;
        if !is_next(self.order, self.newest.range, range) || !self.is_open_leaf(leaf) {
            return None;
        }
        if self.widen(TOP + 1, leaf, range) && self.is_open_leaf(leaf) {
            Some(leaf)
        } else {
            None
        }
    }

    /// A leaf with room whose rectangle has a range, where nodes suffice.
    pub(crate) fn leaf_for(&mut self, range: Range) -> Option<usize>
        requires tree { HoldTree self.old }
        ensures rest { Rearranges self.old self.new }
        ensures leaf { IfSome result (λ key. TakesIn self.new key range) }
    {
        match self.leaf_again(range) {
            Some(leaf) => Some(leaf),
            None => self.leaf_from_root(range),
        }
    }

    // The same, by the way down from the root.
    fn leaf_from_root(&mut self, range: Range) -> Option<usize>
        requires tree { HoldTree self.old }
        ensures rest { Rearranges self.old self.new }
        ensures leaf { IfSome result (λ key. TakesIn self.new key range) }
    {
        self.open_root(range);
        if self.is_full(self.root) {
            return None;
        }
        let mut key = self.root;
        for _ in 0..TOP + 1 {
            let Some(node) = self.nodes.get(key) else {
                return None;
            };
            if node.level == 0 {
                return Some(key);
            }
            let Some(below) = self.step_down(key, range) else {
                return None;
            };
            key = below;
        }
        None
    }
}
