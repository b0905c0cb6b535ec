ghost use Rattle.std.specs.Prelude.{◌≡◌, map, IfOk};
ghost use Rattle.formula_syntax.specs.Listing.{IsOnceEach};
ghost use Rattle.sheet_model.specs.Ranges.{ranges_in};
ghost use Rattle.sheet_model.specs.Sheets.{content_value};

use formula_syntax::{Formula, refs};
use sheet_refs::{Memory, Refs};
use std::alloc::Global;
use std::sync::Arc;
use value_core::{ErrorKind, Whole};

/// What stands in a cell.
#[derive(Drop)]
pub enum Content {
    /// Nothing.
    Empty,
    /// A number.
    Number(Whole),
    /// TRUE or FALSE.
    Truth(bool),
    /// An error, which in a sheet is never `#CIRC!`.
    Error(ErrorKind),
    /// A text: its place, from 0, in the sheet's table of labels.
    Label(u32),
    /// A formula.
    Formula(Arc<Formula>),
}

impl Content {
    /// An equal content. A formula is shared, so that it takes no time by its length.
    pub fn copy(&self) -> Result<Content, Memory>
        ensures { IfOk result (λ copy. content_value copy ≡ content_value self.now) }
    {
        Ok(match self {
            Content::Empty => Content::Empty,
            Content::Number(number) => Content::Number(*number),
            Content::Truth(truth) => Content::Truth(*truth),
            Content::Error(kind) => Content::Error(*kind),
            Content::Label(place) => Content::Label(*place),
            Content::Formula(formula) => Content::Formula(formula.clone()?),
        })
    }

    /// The ranges to which it refers, each once; only a formula refers to any.
    pub fn refs(&self, alloc: Global) -> Result<Refs, Memory>
        ensures { IfOk result (IsOnceEach (ranges_in (content_value self.now))) }
    {
        match self {
            Content::Formula(formula) => refs(alloc, formula),
            _ => Refs::of(alloc, &[]),
        }
    }
}

/// Equal contents, in their order.
pub(crate) fn copy_all(alloc: Global, contents: &[Content]) -> Result<Vec<Content>, Memory>
    ensures { IfOk result
        (λ copies. map content_value copies.items ≡ map content_value contents.now) }
{
    let mut copies = Vec::with_capacity(alloc, contents.len())?;
    for content in contents {
        let copy = content.copy()?;
        copies.push(copy)?;
    }
    Ok(copies)
}
