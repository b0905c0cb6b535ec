ghost use Rattle.std.specs.Prelude.{◌≡◌, IsTrue, IfOk};
ghost use Rattle.std.specs.BTreeMap.{get};
ghost use Rattle.std.specs.Ordering.{nat_cmp};
ghost use Rattle.sheet_refs.specs.Sizes.{is_inside, place_of};
ghost use Rattle.sheet_model.specs.Edits.{AreInSheet, AreOfDistinctCells};
ghost use Rattle.sheet_model.specs.Sheets.{IsSheet};
ghost use Rattle.sheet_undo.specs.Found.{AreCellsOf};

use sheet_model::{Change, Sheet};
use sheet_refs::{Cell, Memory, Sizes};
use std::alloc::Global;
use std::collections::BTreeMap;

/// The cells of an entry: by a cell's place in the sheet, the place of its change in the entry, counted from 0.
#[derive(Drop)]
pub(crate) struct EntryCells {
    pub(crate) sizes: Sizes,
    pub(crate) places: BTreeMap<usize, usize>,
}

impl EntryCells {
    /// The cells of changes of distinct cells of a sheet.
    pub(crate) fn of(alloc: Global, sheet: &Sheet, changes: &[Change]) -> Result<EntryCells, Memory>
        requires inside { AreInSheet sheet.now changes.now }
        requires distinct { AreOfDistinctCells changes.now }
        ensures sheet { IsSheet sheet.now }
        ensures sizes { IfOk result (λ cells. cells.sizes ≡ sheet.now.sizes) }
        ensures cells { IfOk result (AreCellsOf changes.now) }
    {
        let sizes = sheet.sizes();
        let mut places = BTreeMap::new(alloc);
        for place in 0..changes.len() {
            let change = &changes[place];
            places.insert(sizes.place(change.cell), place)?;
        }
        Ok(EntryCells { sizes, places })
    }

    /// The place of the change of a cell of the sheet, if there is one.
    pub(crate) fn find(&self, cell: Cell) -> Option<usize>
        requires { IsTrue (is_inside self.now.sizes cell) }
        ensures { result ≡ get nat_cmp self.now.places (place_of self.now.sizes cell) }
    {
        self.places.get(&self.sizes.place(cell)).copied()
    }
}
