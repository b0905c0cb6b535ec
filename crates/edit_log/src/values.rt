ghost use Rattle.std.specs.Prelude.{◌≡◌, All, IfOk, IfSome, IsTrue};
ghost use Rattle.sheet_refs.specs.Sizes.{is_inside};
ghost use Rattle.sheet_model.specs.KeptValues.{ForgetsValues, KeepsValuesOf};

use crate::book::Book;
use graph_walk::Graph;
use sheet_model::{KeptValues, Sheet};
use sheet_refs::{Cell, Memory};

/// Forgets the values of cells, where values are kept.
pub(crate) fn forget(values: &mut Option<KeptValues>, sheet: &Sheet, cells: &[Cell])
    requires kept { IfSome values.old (KeepsValuesOf sheet.now) }
    requires inside { All (λ cell. IsTrue (is_inside sheet.now.sizes cell)) cells.now }
    ensures { IfSome values.new (ForgetsValues sheet.now cells.now) }
{
    if let Some(values) = values {
        values.forget(sheet, cells);
    }
}

impl<G: Graph> Book<G> {
    /// The values of the sheet's cells, as far as they are kept. They are handed out: `keep_values` hands them back,
    /// and where they are dropped the book goes on without. Where none are kept these are new ones, in the time and
    /// memory of `KeptValues::new`; after `Memory` the book is as before.
    pub fn take_values(&mut self) -> Result<KeptValues, Memory>
        ensures values { IfOk result (KeepsValuesOf self.old.sheet) }
        ensures same { self.new ≡ self.old }
    {
        match self.values.take() {
            Some(values) => Ok(values),
            None => KeptValues::new(self.alloc, &self.sheet),
        }
    }

    /// Keeps values of the sheet's cells, also through edits: each forgets those of the cells that it touches.
    pub fn keep_values(&mut self, values: KeptValues)
        requires { KeepsValuesOf self.old.sheet values }
        ensures { self.new ≡ self.old }
    {
        self.values = Some(values);
    }
}
