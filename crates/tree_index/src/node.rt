use arrayvec::ArrayVec;
use range_index::Item;
use std::marker::Model;

/// How many children a node has at most.
pub(crate) const MAX_CHILDREN: usize = 16;

/// The highest level of a node.
pub(crate) const TOP: u32 = 15;

/// A node: how many levels are below it, and its children, which are entries at level 0 and nodes with their
/// rectangles above. `parent` says where to look for the node above; what is promised doesn't rest on it.
#[derive(Drop)]
pub(crate) struct Node {
    pub(crate) level: u32,
    pub(crate) parent: usize,
    pub(crate) children: ArrayVec<Item, MAX_CHILDREN>,
}

impl Model for Node {
    ghost use Rattle.tree_index.specs.Trees.{Node as NodeValue};

    ghost Value = { NodeValue };

    ghost view = { λ n. record { level = n.level; children = n.children.items } };
}
