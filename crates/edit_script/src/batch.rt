ghost use Rattle.std.specs.Prelude.{◌≡◌, ◌↔◌, ◌<◌, ◌≤◌, ◌++◌};
ghost use Rattle.std.specs.Prelude.{◌∷◌, [], length, Contains, IsTrue, OnOk};
ghost use Rattle.sheet_model.specs.Edits.{HasName, named_place};
ghost use Rattle.edit_script.specs.Batches.{changed_cells};

use sheet_model::{Change, Edit};
use sheet_refs::{Cell, MAX_COLS, MAX_ROWS, Memory, Sizes};
use std::alloc::Global;
use std::collections::BTreeSet;
use std::marker::Model;

/// The changes of a batch that isn't ended: at most 1,024, no two of them of one cell.
#[derive(Drop)]
pub(crate) struct Batch {
    changes: Vec<Change>,
    /// The places of their cells among all cells that have names, row by row.
    places: BTreeSet<usize>,
}

impl Model for Batch {
    ghost use Rattle.std.specs.Coded.{codes};
    ghost use Rattle.formula_syntax.specs.TreeCode.{tree_code};
    ghost use Rattle.sheet_model.specs.Edits.{EditValue};
    ghost use Rattle.edit_script.specs.Batches.{IsStoredBatch};

    ghost Value = { EditValue };

    ghost coded = { Prim.hlevel (codes, tree_code (Prim.hlevel codes)) };

    ghost view = { λ b. b.changes.items };

    ghost invariant = { λ b. IsStoredBatch b.changes.items b.places };
}

impl Batch {
    /// Without changes.
    pub(crate) fn new(alloc: Global) -> Batch
        ensures { result ≡ [] }
    {
        Batch {
            changes: Vec::new(alloc),
            places: BTreeSet::new(alloc),
        }
    }

    /// The number of changes.
    pub(crate) fn count(&self) -> usize
        ensures { result ≡ length self.now }
    {
        self.changes.len()
    }

    /// Whether a change is of the cell.
    pub(crate) fn has(&self, cell: Cell) -> bool
        ensures { IsTrue result ↔ Contains (changed_cells self.now) cell }
    {
        self.places.contains(&place_of_name(cell))
    }

    /// Adds a change of another cell.
    pub(crate) fn push(&mut self, change: Change) -> Result<(), Memory>
        requires few { length self.old < 1024 }
        requires apart { ¬ Contains (changed_cells self.old) change.cell }
        ensures { OnOk result (self.new ≡ self.old ++ change ∷ []) }
    {
        let place = place_of_name(change.cell);
        self.changes.reserve(1)?;
        match self.places.insert(place) {
            Ok(_) => {
                self.changes.push_reserved(change);
                Ok(())
            }
            Err(_) => Err(Memory),
        }
    }

    /// The edit of these changes.
    pub(crate) fn into_edit(self) -> Edit
        requires { 1 ≤ length self }
        ensures { result ≡ self }
    {
        let Batch { changes, .. } = self;
        match Edit::of(changes) {
            Some(edit) => edit,
            None => unreachable!(),
        }
    }
}

// The place of a cell among all cells that have names.
fn place_of_name(cell: Cell) -> usize
    ensures place { result ≡ named_place cell }
    ensures named { HasName cell }
{
    let sizes = Sizes {
        rows: MAX_ROWS,
        cols: MAX_COLS,
    };
    sizes.place(cell)
}
