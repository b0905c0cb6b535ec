// The index by a tree of rectangles.
use crate::nodes::Tree;
use range_index::{InsertOrder, RangeIndex};
use sheet_refs::{Memory, Range};
use std::alloc::Global;
use std::marker::Model;

/// An index by a tree of rectangles, an R-tree (Guttman, 1984), which can be packed (Roussopoulos and Leifker, 1985).
///
/// A node has up to sixteen children, each with a rectangle; in a leaf they are the entries. An insert goes into the
/// leaf that took in the entry before it, where that has room and the two ranges are next to each other and about as
/// large. Else it goes down to the child whose rectangle grows least, or to the last one, where none has the range
/// and that one grows by no more cells than the range has. It splits each full node that it comes to in halves, in
/// the order of rows, columns or sizes, whichever leaves the smallest rectangles. It takes nodes that `reserve` has
/// made room for; where there is none left, the entry goes to a list that each query looks through, and the next
/// `reserve` puts it into the tree. A removal makes the rectangles above it as small as they can be, and takes nodes
/// without children out.
///
/// Where inserts are said to come by place, each goes into the leaf of the one before it, wherever that lies, or down
/// by the last children, and a full node keeps all children but the last: so the tree is packed, with nodes that are as
/// good as full.
///
/// Costs: an insert, a removal and a change look at a node a level, and a query at the nodes whose rectangles overlap
/// it. A level of the tree takes at most sixteen times the entries of the one below it, and most often eight or more.
#[derive(Drop)]
pub struct TreeIndex {
    tree: Tree,
}

impl Model for TreeIndex {
    ghost use Rattle.tree_index.specs.Indexes.{TreeValue, HoldTree, tree_value};

    ghost Value = { TreeValue };

    ghost view = { λ i. tree_value i.tree };

    ghost invariant = { λ i. HoldTree i.tree };
}

impl RangeIndex for TreeIndex {
    ghost entries = { λ i. i.entries };

    ghost spare = { λ i. i.spare };

    fn empty(alloc: Global) -> TreeIndex {
        TreeIndex {
            tree: Tree::empty(alloc),
        }
    }

    fn reserve(&mut self, inserts: u32) -> Result<(), Memory> {
        self.tree.reserve(inserts as usize)
    }

    fn set_insert_order(&mut self, order: InsertOrder) {
        self.tree.order = order;
    }

    fn insert(&mut self, id: usize, range: Range) {
        self.tree.add(id, range);
    }

    fn remove(&mut self, id: usize, range: Range) {
        self.tree.take_out(id);
    }

    fn change(&mut self, id: usize, from: Range, to: Range) {
        self.tree.change(id, to);
    }

    fn overlapping(&self, q: Range, out: &mut Vec<usize>) -> Result<(), Memory> {
        self.tree.visit(q, out)
    }
}
