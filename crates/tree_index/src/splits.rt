// Splitting a full node.
ghost use Rattle.tree_index.specs.Indexes.{HoldTree};
ghost use Rattle.tree_index.specs.Changes.{Rearranges, MayShare, KeepsNode, KeepAllNodes};

use crate::choices::{Halves, halves_of};
use crate::node::MAX_CHILDREN;
use crate::nodes::Tree;
use sheet_refs::Range;

impl Tree {
    /// Splits the child at a place of a node that has room, where a range is to come, and gives the new node.
    pub(crate) fn split(&mut self, above: usize, place: usize, added: Range) -> Option<usize>
        requires tree { HoldTree self.old }
        ensures rest { Rearranges self.old self.new }
        ensures above { KeepsNode self.old self.new above }
    {
        let Some(child) = self.child_at(above, place) else {
            return None;
        };
        let from = child.id;
        let Some(node) = self.nodes.get(from) else {
            return None;
        };
        let level = node.level;
        let halves = halves_of(self.order, node.children.as_slice(), added);
        let Some(to) = self.make_beside(above, place) else {
            return None;
        };
        self.share_out(level, from, to, &halves);
        self.tighten(from);
        self.tighten(to);
        Some(to)
    }

    // Moves the child at a place of a node to another of its level that has room.
    fn move_child(&mut self, level: u32, from: usize, place: usize, to: usize)
        requires tree { HoldTree self.old }
        requires may { MayShare self.old level from to }
        ensures rest { Rearranges self.old self.new }
        ensures nodes { KeepAllNodes self.old self.new }
        ensures may { MayShare self.new level from to }
    {
        if level == 0 {
            self.move_entry(from, place, to);
        } else {
            self.move_node(level, from, place, to);
        }
    }

    // Moves the children of one half of a node to one that has room for them.
    fn share_out(&mut self, level: u32, from: usize, to: usize, halves: &Halves)
        requires tree { HoldTree self.old }
        requires may { MayShare self.old level from to }
        ensures rest { Rearranges self.old self.new }
        ensures nodes { KeepAllNodes self.old self.new }
    {
        for place in (0..MAX_CHILDREN).rev() {
            if halves[place] {
                self.move_child(level, from, place, to);
            }
        }
    }
}
