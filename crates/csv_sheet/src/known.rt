// What is known of the next fields of a text, in the lists that several threads have made.
ghost use Rattle.std.specs.Prelude.{List, ℕ, ◌∷◌};
ghost use Rattle.formula_syntax.specs.declared.edition.Edition.{Edition};
ghost use Rattle.csv_sheet.specs.Ahead.{AreNext, Begin, IsAhead, in_lists};

use sheet_model::Content;
use std::alloc::Global;
use std::vec::IntoIter;

/// What is known of fields, list by list, in their order.
pub(crate) type Ahead = Vec<Vec<Option<Content>>>;

/// The same, field by field.
#[derive(Drop)]
pub(crate) struct Known {
    list: IntoIter<Option<Content>>,
    others: IntoIter<Vec<Option<Content>>>,
}

impl Known {
    pub(crate) fn new(alloc: Global, ahead: Ahead) -> Known
        ensures { (edition : Edition) (fields : List (List ℕ))
            → Begin edition (in_lists ahead.items) fields → AreNext edition result fields }
    {
        Known {
            list: Vec::new(alloc).into_iter(),
            others: ahead.into_iter(),
        }
    }

    /// The content that the next field writes, where it is known.
    pub(crate) fn next(&mut self) -> Option<Content>
        ensures { (edition : Edition) (field : List ℕ) (fields : List (List ℕ))
            → AreNext edition self.old (field ∷ fields)
            → IsAhead edition field result × AreNext edition self.new fields }
    {
        while self.list.len() == 0 {
            self.list = self.others.next()?.into_iter();
        }
        self.list.next().flatten()
    }
}
