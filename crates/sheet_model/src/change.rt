use crate::content::Content;
use sheet_refs::{Cell, Memory};
use std::marker::Model;

/// A cell, and what it is to hold: a value in range other than `#CIRC!`, or a formula that can be read, which
/// doesn't write that error either.
#[derive(Drop)]
pub struct Change {
    /// The cell.
    pub cell: Cell,
    /// What it is to hold.
    pub content: Content,
}

impl Model for Change {
    ghost use Rattle.std.specs.Coded.{codes};
    ghost use Rattle.formula_syntax.specs.TreeCode.{tree_code};
    ghost use Rattle.sheet_model.specs.Changes.{ChangeValue};
    ghost use Rattle.sheet_model.specs.Sheets.{content_value, IsWritten};

    ghost Value = { ChangeValue };

    ghost coded = { Prim.hlevel (codes, tree_code (Prim.hlevel codes)) };

    ghost view = { λ c. record { cell = c.cell; content = content_value c.content } };

    ghost invariant = { λ c. IsWritten (content_value c.content) };
}

impl Change {
    ghost use Rattle.std.specs.Prelude.{◌≡◌, IfOk};

    /// An equal change. A formula is shared, so that it takes no time by its length.
    pub fn copy(&self) -> Result<Change, Memory>
        ensures { IfOk result (λ change. change ≡ self.now) }
    {
        let content = self.content.copy()?;
        Ok(Change {
            cell: self.cell,
            content,
        })
    }
}
