ghost use Rattle.std.specs.Prelude.{◌≤◌, length};
ghost use Rattle.sheet_model.specs.Edits.{AreInSheet, after_edit};
ghost use Rattle.sheet_model.specs.Sheets.{SheetValue};
ghost use Rattle.edit_log.specs.Books.{HaveRefs};
ghost use Rattle.edit_log.specs.Pairs.{ArePairsOf, IsFilled};

use graph_walk::Graph;
use sheet_model::Change;
use sheet_refs::Refs;

/// Gives a graph the references of each change: where its pairs were those of a sheet, they are then those of the sheet
/// after the changes. It takes no memory.
pub(crate) fn replace_all<G: Graph>(graph: &mut G, changes: &[Change], refs: &[Refs])
    requires whole { HaveRefs changes.now refs.now }
    requires room { length changes.now ≤ G.spare graph.old }
    ensures { (sheet : SheetValue) → IsFilled sheet → AreInSheet sheet changes.now
        → ArePairsOf sheet (G.pairs graph.old)
        → ArePairsOf (after_edit sheet changes.now) (G.pairs graph.new) }
{
    for place in 0..changes.len() {
        let change = &changes[place];
        graph.replace(change.cell, &refs[place]);
    }
}
