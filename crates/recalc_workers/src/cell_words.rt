use sheet_model::{Content, Sheet, value_laws};
use sheet_refs::Cell;
use value_core::{ErrorKind, Value, code};

/// Where settling takes the word of a cell from.
pub(crate) enum Source<'a> {
    /// What is in the cell: its word is the code of what this gives over the values of its inputs.
    Inputs(&'a Content),
    /// The word itself.
    Word(u64),
}

/// What settling puts at the cells of a sheet: the codes of their values.
pub(crate) trait CellWords {
    ghost use Rattle.sheet_refs.specs.Cells.{Position};
    ghost use Rattle.sheet_model.specs.Sheets.{SheetValue};
    ghost use Rattle.recalc_workers.specs.Sources.{IsSourceOf};

    /// The sheet.
    ghost sheet: { Self → SheetValue };

    /// Of which of its cells.
    ghost covers: { Self → Position → Type 0 };

    /// Where the word of the cell comes from.
    fn source(&self, cell: Cell) -> Source<'_>
        requires { covers self.now cell }
        ensures { IsSourceOf (sheet self.now) cell result };
}

/// Cells whose inputs are clean.
#[derive(Clone, Copy)]
pub(crate) struct FromInputs<'a> {
    pub(crate) sheet: &'a Sheet,
}

impl<'a> CellWords for FromInputs<'a> {
    ghost use Rattle.std.specs.Prelude.{⊤};

    ghost sheet = { λ words. words.sheet.now };

    ghost covers = { λ words cell. ⊤ };

    fn source(&self, cell: Cell) -> Source<'_> {
        Source::Inputs(self.sheet.content(cell))
    }
}

/// Cells that lead into a cycle.
#[derive(Clone, Copy)]
pub(crate) struct OnCycles<'a> {
    pub(crate) sheet: &'a Sheet,
}

impl<'a> CellWords for OnCycles<'a> {
    ghost use Rattle.sheet_model.specs.Budget.{LeadsIntoCycle};
    ghost use Rattle.sheet_model.specs.Values.{IsInput};

    ghost sheet = { λ words. words.sheet.now };

    ghost covers = { λ words cell. LeadsIntoCycle (IsInput words.sheet.now) cell };

    fn source(&self, _cell: Cell) -> Source<'_> {
        value_laws();
        let _ = self.sheet.sizes();
        Source::Word(code(Value::Error(ErrorKind::Circ)))
    }
}

/// Cells whose values were computed: the code of each is at the cell's place.
#[derive(Clone, Copy)]
pub(crate) struct FromValues<'a> {
    pub(crate) sheet: &'a Sheet,
    pub(crate) codes: &'a [u64],
}

impl<'a> CellWords for FromValues<'a> {
    ghost use Rattle.recalc_workers.specs.Sources.{HasCodeInside};

    ghost sheet = { λ words. words.sheet.now };

    ghost covers = { λ words. HasCodeInside words.sheet.now words.codes.now };

    fn source(&self, cell: Cell) -> Source<'_> {
        Source::Word(self.codes[self.sheet.sizes().place(cell)])
    }
}
