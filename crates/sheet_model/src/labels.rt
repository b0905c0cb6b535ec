ghost use Rattle.std.specs.Prelude.{◌≡◌, ◌<◌, ◌^◌, ◌-◌, [], length, slice_get, Some, IfOk, OnOk};
ghost use Rattle.std.specs.Prelude.{OnErr};
ghost use Rattle.sheet_model.specs.Labels.{IsTable, with_label, label_text};

use sheet_refs::Memory;
use std::alloc::Global;
use std::marker::Model;
use text_table::TextTable;

/// A table of labels: distinct texts, each at its place, counted from 0.
#[derive(Drop)]
pub struct Labels {
    texts: TextTable,
}

impl Model for Labels {
    ghost use Rattle.std.specs.Prelude.{ℕ, List};
    ghost use Rattle.sheet_model.specs.Labels.{IsTable};

    ghost Value = { List (List ℕ) };

    ghost view = { λ l. l.texts };

    ghost invariant = { λ l. IsTable l.texts };
}

impl Labels {
    /// A table without texts.
    pub fn new(alloc: Global) -> Labels
        ensures { result ≡ [] }
    {
        Labels {
            texts: TextTable::new(alloc),
        }
    }

    /// The number of texts.
    pub fn length(&self) -> u32
        ensures length { result ≡ length self.now }
        ensures table { IsTable self.now }
    {
        self.texts.length()
    }

    /// The place of a text, which is added at the end where it isn't there. It takes time in proportion to the length
    /// of the text, and at most times the logarithm of the number of texts, whatever the texts are (`TextTable`).
    /// After a refusal the table is as before.
    pub fn intern(&mut self, text: &str) -> Result<u32, Memory>
        requires { length self.old < 2 ^ 32 - 1 }
        ensures place { IfOk result (λ place. slice_get self.new place ≡ Some text.now) }
        ensures table { OnOk result (self.new ≡ with_label self.old text.now) }
        ensures refused { OnErr result (self.new ≡ self.old) }
    {
        let place = self.texts.intern(text)?;
        Ok(place)
    }

    /// The text at a place.
    pub fn text(&self, place: u32) -> &str
        requires { place < length self.now }
        ensures { result.now ≡ label_text self.now place }
    {
        self.texts.text(place)
    }

    /// An equal table. It takes time and memory in proportion to the texts.
    pub(crate) fn copy(&self) -> Result<Labels, Memory>
        ensures { IfOk result (λ labels. labels ≡ self.now) }
    {
        let texts = self.texts.copy()?;
        Ok(Labels { texts })
    }
}
