// What overlaps a query.
ghost use Rattle.std.specs.Prelude.{OnOk};
ghost use Rattle.range_index.specs.Entries.{AddsOverlapping, KeepsIds, HaveOneRange};
ghost use Rattle.tree_index.specs.Indexes.{HoldTree, entries_in, node_at};
ghost use Rattle.tree_index.specs.Trees.{IsInTree, IsUnder};
ghost use Rattle.tree_index.specs.Changes.{AddsThose};

use crate::nodes::Tree;
use crate::rectangles::meet;
use range_index::Item;
use sheet_refs::{Memory, Range};

// Adds the ids of some entries whose ranges overlap a query.
fn visit_items(items: &[Item], q: Range, out: &mut Vec<usize>) -> Result<(), Memory>
    requires { HaveOneRange items.now }
    ensures found { OnOk result (AddsOverlapping items.now q out.old.items out.new.items) }
    ensures kept { KeepsIds out.old.items out.new.items }
{
    for item in items {
        if meet(item.range, q) {
            out.push(item.id)?;
        }
    }
    Ok(())
}

impl Tree {
    // The same of the entries of a leaf.
    fn visit_leaf(&self, key: usize, q: Range, out: &mut Vec<usize>) -> Result<(), Memory>
        requires { HoldTree self.now }
        ensures found { OnOk result
            (AddsThose (IsUnder (node_at self.now) 0 key) q out.old.items out.new.items) }
        ensures kept { KeepsIds out.old.items out.new.items }
    {
        let Some(leaf) = self.nodes.get(key) else {
            return Ok(());
        };
        if leaf.level != 0 {
            return Ok(());
        }
        visit_items(leaf.children.as_slice(), q, out)
    }

    // The same of all leaves below a node of a level.
    fn visit_below(
        &self,
        level: u32,
        key: usize,
        q: Range,
        out: &mut Vec<usize>,
    ) -> Result<(), Memory>
        requires { HoldTree self.now }
        ensures found { OnOk result
            (AddsThose (IsUnder (node_at self.now) level key) q out.old.items out.new.items) }
        ensures kept { KeepsIds out.old.items out.new.items }
    {
        if level == 0 {
            return self.visit_leaf(key, q, out);
        }
        let Some(node) = self.nodes.get(key) else {
            return Ok(());
        };
        if node.level != level {
            return Ok(());
        }
        for child in node.children.as_slice() {
            if meet(child.range, q) {
                self.visit_below(level - 1, child.id, q, out)?;
            }
        }
        Ok(())
    }

    // The same of the whole tree.
    fn visit_tree(&self, q: Range, out: &mut Vec<usize>) -> Result<(), Memory>
        requires { HoldTree self.now }
        ensures found { OnOk result
            (AddsThose (IsInTree (node_at self.now)) q out.old.items out.new.items) }
        ensures kept { KeepsIds out.old.items out.new.items }
    {
        let Some(root) = self.nodes.get(self.root) else {
            return Ok(());
        };
        self.visit_below(root.level, self.root, q, out)
    }

    /// Adds the ids whose ranges overlap the query.
    pub(crate) fn visit(&self, q: Range, out: &mut Vec<usize>) -> Result<(), Memory>
        requires { HoldTree self.now }
        ensures found { OnOk result
            (AddsOverlapping (entries_in self.now) q out.old.items out.new.items) }
        ensures kept { KeepsIds out.old.items out.new.items }
        ensures one_range { HaveOneRange (entries_in self.now) }
    {
        visit_items(self.late.as_slice(), q, out)?;
        self.visit_tree(q, out)
    }
}
