// The nodes of a tree, and each single look at them and write to them.
ghost use Rattle.std.specs.Prelude.{◌≡◌, ◌↔◌, ◌-◌, ◌++◌, [], ◌∷◌, length, None, Some};
ghost use Rattle.std.specs.Prelude.{IsTrue, IsFalse, IsSome, IfSome, IfNone, MatchOption, swap_remove};
ghost use Rattle.std.specs.HashMap.{spare, IsUnique};
ghost use Rattle.std.specs.Prelude.{nat_eq};
ghost use Rattle.slab.specs.Slab.{HasRoomFor};
ghost use Rattle.sheet_refs.specs.Cells.{Corners};
ghost use Rattle.range_index.specs.Entries.{HasNoId, IsPlaceOf};
ghost use Rattle.tree_index.specs.Trees.{note_of, new_node};
ghost use Rattle.tree_index.specs.Indexes.{HoldTree, entries_in, node_at};
ghost use Rattle.tree_index.specs.Changes.{note_at, SetsKey, SetsNode, SetsChildren, SetsRange};
ghost use Rattle.tree_index.specs.Changes.{Admits, HasPlace, IsPlaceAbove, child_of};

use crate::node::Node;
use crate::notes::{Note, Place};
use crate::rectangles::covers;
use arrayvec::ArrayVec;
use range_index::{InsertOrder, Item};
use sheet_refs::Range;
use slab::Slab;
use std::alloc::Global;
use std::collections::HashMap;

/// The nodes, the key of the root, the entries that are still to come into the tree, and what is noted of each id.
/// `newest` says with which range an entry came last, and which leaf took it in, and `order` in which order entries
/// come; what is promised doesn't rest on them.
#[derive(Drop)]
pub(crate) struct Tree {
    pub(crate) nodes: Slab<Node>,
    pub(crate) root: usize,
    pub(crate) late: Vec<Item>,
    pub(crate) notes: HashMap<usize, Note>,
    pub(crate) newest: Item,
    pub(crate) order: InsertOrder,
}

// Whether a key is that of the last child.
fn is_last(children: &[Item], id: usize) -> bool
    ensures { IsTrue result → IsPlaceOf children.now id (length children.now - 1) }
{
    match children.last() {
        Some(child) => child.id == id,
        None => false,
    }
}

// The place of a key among children. The last one is asked first: where entries come in order, it is the one.
pub(crate) fn place_of(children: &[Item], id: usize) -> Option<usize>
    ensures { MatchOption result (HasNoId children.now id) (IsPlaceOf children.now id) }
{
    if is_last(children, id) {
        return Some(children.len() - 1);
    }
    for place in 0..children.len() {
        let child = children[place];
        if child.id == id {
            return Some(place);
        }
    }
    None
}

impl Tree {
    pub(crate) fn empty(alloc: Global) -> Tree
        ensures tree { HoldTree result }
        ensures none { entries_in result ≡ [] }
    {
        Tree {
            nodes: Slab::new(alloc),
            root: 0,
            late: Vec::new(alloc),
            notes: HashMap::new(alloc),
            newest: Item::default(),
            order: InsertOrder::Any,
        }
    }

    // Whether a node can be made without memory.
    fn has_node(&self) -> bool
        ensures { IsTrue result ↔ HasRoomFor self.now.nodes 1 }
    {
        self.nodes.len() < self.nodes.capacity()
    }

    // The child at a place of a node.
    pub(crate) fn child_at(&self, key: usize, place: usize) -> Option<Item>
        ensures { result ≡ child_of self.now key place }
    {
        let Some(node) = self.nodes.get(key) else {
            return None;
        };
        node.children.as_slice().get(place).copied()
    }

    // The node above another, and the place of the one among the other's children, where it is found.
    pub(crate) fn place_above(&self, key: usize) -> Option<(usize, usize)>
        ensures { IfSome result (λ p. IsPlaceAbove self.now key p.0 p.1) }
    {
        let Some(node) = self.nodes.get(key) else {
            return None;
        };
        let parent = node.parent;
        let Some(above) = self.nodes.get(parent) else {
            return None;
        };
        if above.level == 0 {
            return None;
        }
        match place_of(above.children.as_slice(), key) {
            Some(place) => Some((parent, place)),
            None => None,
        }
    }

    // Makes a node without children, where there is room.
    pub(crate) fn make_node(&mut self, level: u32, parent: usize) -> Option<usize>
        ensures fresh { IfSome result (λ key. node_at self.old key ≡ None) }
        ensures made { IfSome result (λ key. SetsNode self.old self.new key (Some (new_node level))) }
        ensures none { IfNone result (self.new ≡ self.old) }
    {
        if !self.has_node() {
            return None;
        }
        let children = ArrayVec::new();
        Some(
            self.nodes.insert_reserved(Node {
                level,
                parent,
                children,
            }),
        )
    }

    // Adds a child to a node that has room.
    pub(crate) fn push_child(&mut self, key: usize, child: Item)
        requires { HasPlace self.old key }
        ensures { SetsChildren self.old self.new key (λ children. children ++ child ∷ []) }
    {
        if let Some(node) = self.nodes.get_mut(key) {
            let _ = node.children.try_push(child);
        }
    }

    // Takes the child at a place out of a node.
    pub(crate) fn take_child(&mut self, key: usize, place: usize) -> Option<Item>
        ensures child { result ≡ child_of self.old key place }
        ensures taken { IfSome result (λ child. SetsChildren self.old self.new key
            (λ children. swap_remove children place child)) }
        ensures none { IfNone result (self.new ≡ self.old) }
    {
        match self.nodes.get_mut(key) {
            Some(node) => node.children.swap_pop(place),
            None => None,
        }
    }

    /// Gives the child at a place of a node another rectangle.
    pub(crate) fn set_range(&mut self, key: usize, place: usize, range: Range)
        requires { IsSome (child_of self.old key place) }
        ensures { SetsRange self.old self.new key place range }
    {
        if let Some(node) = self.nodes.get_mut(key) {
            if let Some(child) = node.children.get_mut(place) {
                child.range = range;
            }
        }
    }

    // Says where to look for the node above another.
    pub(crate) fn set_parent(&mut self, key: usize, parent: usize)
        ensures { self.new ≡ self.old }
    {
        if let Some(node) = self.nodes.get_mut(key) {
            node.parent = parent;
        }
    }

    // Notes where an entry that is noted stands.
    pub(crate) fn note(&mut self, item: Item, place: Place)
        requires { IsSome (note_at self.old item.id) }
        ensures noted { SetsKey (note_at self.old) (note_at self.new) item.id
            (Some (note_of item.range place)) }
        ensures nodes { self.new.nodes ≡ self.old.nodes }
        ensures root { self.new.root ≡ self.old.root }
        ensures late { self.new.late ≡ self.old.late }
        ensures room { spare self.new.notes ≡ spare self.old.notes }
        ensures unique { IsUnique nat_eq self.new.notes }
    {
        let range = item.range;
        if let Some(note) = self.notes.get_mut(&item.id) {
            *note = Note { range, place };
        }
    }

    /// Whether a node is the root, whose rectangle has every range.
    pub(crate) fn is_root(&self, key: usize) -> bool
        requires { HoldTree self.now }
        ensures { IsTrue result → (range : Corners) → Admits (node_at self.now) key range }
    {
        key == self.root
    }

    /// Whether the rectangle of the node at a place of another has a range.
    pub(crate) fn child_admits(&self, above: usize, place: usize, key: usize, range: Range) -> bool
        requires tree { HoldTree self.now }
        requires place { IsPlaceAbove self.now key above place }
        ensures { IsTrue result → Admits (node_at self.now) key range }
    {
        match self.child_at(above, place) {
            Some(child) => child.id == key && covers(child.range, range),
            None => false,
        }
    }

    /// Whether a node has as many children as it can have; one that isn't there has.
    pub(crate) fn is_full(&self, key: usize) -> bool
        ensures { IsFalse result → HasPlace self.now key }
    {
        match self.nodes.get(key) {
            Some(node) => node.children.is_full(),
            None => true,
        }
    }
}
