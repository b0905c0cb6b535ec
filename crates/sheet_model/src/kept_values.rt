ghost use Rattle.std.specs.Prelude.{◌≡◌, IfOk, OnOk, IsTrue, IsFalse, All};
ghost use Rattle.sheet_refs.specs.Sizes.{is_inside};
ghost use Rattle.sheet_refs.specs.declared.sizes.Sizes.{Sizes};
ghost use Rattle.sheet_model.specs.KeptValues.{KeepsValuesOf, ForgetsValues, HoldsNoLess};
ghost use Rattle.sheet_model.specs.KeptValues.{ComesNearer, HoldsValue, TellCodes};
ghost use Rattle.sheet_model.specs.Sheets.{SheetValue};
ghost use Rattle.sheet_model.specs.Values.{value_of};

use crate::sheet::Sheet;
use crate::walk::Walk;
use sheet_refs::{Cell, Memory};
use std::alloc::Global;
use value_core::{CodeWord, Value, decode};

/// The values of a sheet's cells, as far as they were asked for.
///
/// They outlast edits of the sheet, if those that an edit may change are forgotten before it. Beside them is a list
/// of the cells whose values were found on the way to others (`found`), and perhaps cells that still wait for values of
/// others (`value_within`).
#[derive(Drop)]
pub struct KeptValues {
    pub(crate) walk: Walk,
}

impl KeptValues {
    /// Those of the constants of a sheet. It takes 8 bytes for each cell, and looks at each once.
    pub fn new(alloc: Global, sheet: &Sheet) -> Result<KeptValues, Memory>
        ensures { IfOk result (KeepsValuesOf sheet.now) }
    {
        let mut walk = Walk::new(alloc, sheet)?;
        walk.found = Some(Vec::new(alloc));
        Ok(KeptValues { walk })
    }

    /// The value of a cell. It evaluates each formula to which the cell leads through values that aren't kept, in the
    /// time that `all_values` takes for these formulas, and keeps their values. If the value isn't kept, it gives up
    /// the cells that `value_within` left open, with a write for each. What that found is kept.
    pub fn value(&mut self, sheet: &Sheet, cell: Cell) -> Result<Value, Memory>
        requires kept { KeepsValuesOf sheet.now self.old }
        requires inside { IsTrue (is_inside sheet.now.sizes cell) }
        ensures value { IfOk result (λ value. value ≡ value_of sheet.now cell) }
        ensures kept { OnOk result (KeepsValuesOf sheet.now self.new) }
        ensures held { OnOk result (HoldsValue sheet.now.sizes self.new cell) }
        ensures others { OnOk result (HoldsNoLess sheet.now.sizes self.old self.new) }
    {
        let place = sheet.place(cell);
        self.walk.settle_apart(sheet, place)?;
        Ok(decode(self.walk.words[place]).unwrap())
    }

    /// Goes on towards the value of a cell until it is kept, and says whether it is. False says that no step is left.
    /// The next call then goes on where this one stopped, for this cell or another one: cells that were left open are
    /// settled first.
    ///
    /// Each turn of the walk takes a step, and a call for a value that is kept takes none. In a turn one formula is
    /// evaluated, or one cell is opened. Before that the walk looks on at what the newest open cell names, from where
    /// it stopped, up to the first cell without a value. So all turns together take the time of `value`. Where open
    /// cells lead into a cycle, all of them get `#CIRC!` in one turn.
    ///
    /// Each step brings the walk nearer to its end. So calls come to the value, unless `value` or `forget` gives up the
    /// open cells between them again and again. After `Memory` no clause speaks of the values.
    pub fn value_within(
        &mut self,
        sheet: &Sheet,
        cell: Cell,
        steps: &mut u32,
    ) -> Result<bool, Memory>
        requires kept { KeepsValuesOf sheet.now self.old }
        requires inside { IsTrue (is_inside sheet.now.sizes cell) }
        ensures kept { OnOk result (KeepsValuesOf sheet.now self.new) }
        ensures held { IfOk result
            (λ done. IsTrue done → HoldsValue sheet.now.sizes self.new cell) }
        ensures others { OnOk result (HoldsNoLess sheet.now.sizes self.old self.new) }
        ensures ended { IfOk result (λ done. IsFalse done → steps.new ≡ 0) }
        ensures nearer { OnOk result (ComesNearer self.old self.new steps.old steps.new) }
    {
        let place = sheet.place(cell);
        let done = self.walk.settle_within(sheet, place, steps)?;
        Ok(done)
    }

    /// The codes of the values that are kept, each at the place of its cell, row by row. What is at the places of other
    /// cells means nothing.
    pub fn codes(&self) -> &[u64]
        ensures { TellCodes self.now result.now }
    {
        &self.walk.words
    }

    /// Whether this is a cell of the sheet whose value is kept.
    pub fn holds(&self, sheet: &Sheet, cell: Cell) -> bool
        requires { KeepsValuesOf sheet.now self.now }
        ensures inside { IsTrue result → IsTrue (is_inside sheet.now.sizes cell) }
        ensures held { IsTrue result → HoldsValue sheet.now.sizes self.now cell }
    {
        sheet.sizes().holds(cell) && self.walk.knows(sheet.place(cell))
    }

    /// The cells whose values were found since the list was emptied, on the way to those that were asked for. One that
    /// was asked for is among them too where it waited for others. No clause says so: it is of use to whoever looks at
    /// each of these cells, whatever they are.
    pub fn found(&self) -> &[Cell] {
        match &self.walk.found {
            Some(found) => found,
            None => &[],
        }
    }

    /// Empties the list of the cells that were found.
    pub fn clear_found(&mut self)
        ensures kept { (sheet : SheetValue) → KeepsValuesOf sheet self.old → KeepsValuesOf sheet self.new }
        ensures same { (sizes : Sizes) → HoldsNoLess sizes self.old self.new }
    {
        if let Some(found) = &mut self.walk.found {
            found.clear();
        }
    }

    /// Forgets the values of some cells. What is left are values of each sheet that gives all other cells the values
    /// that this sheet gives them. It first gives up the cells that `value_within` left open, with a write for each.
    pub fn forget(&mut self, sheet: &Sheet, cells: &[Cell])
        requires kept { KeepsValuesOf sheet.now self.old }
        requires inside { All (λ cell. IsTrue (is_inside sheet.now.sizes cell)) cells.now }
        ensures { ForgetsValues sheet.now cells.now self.new }
    {
        self.walk.give_up(sheet);
        for cell in cells {
            self.walk.words[sheet.place(*cell)] = CodeWord::UNSEEN.get();
        }
    }
}
