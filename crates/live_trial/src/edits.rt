ghost use Rattle.std.specs.Bool.{OnTrue};
ghost use Rattle.std.specs.Prelude.{ℕ, IfOk};
ghost use Rattle.sheet_model.specs.Edits.{HaveLabels};
ghost use Rattle.sheet_model.specs.Sheets.{HasLabel, IsWritten, content_value};

use crate::fields::cell;
use sheet_model::{Change, Content, Edit, Sheet};
use std::alloc::Global;
use std::test::Fail;

/// Whether a content is a number or a formula.
pub(crate) fn is_plain(content: &Content) -> bool
    ensures { OnTrue result ((labels : ℕ) → HasLabel labels (content_value content.now)) }
{
    match content {
        Content::Number(_) => true,
        Content::Formula(_) => true,
        _ => false,
    }
}

// What a field says, which is no label.
fn content_of(sheet: &mut Sheet, field: &str) -> Result<Content, Fail>
    ensures label { IfOk result
        (λ content. (labels : ℕ) → HasLabel labels (content_value content)) }
    ensures written { IfOk result (λ content. IsWritten (content_value content)) }
{
    if field.len() > 8_192 || sheet.labels().length() == u32::MAX {
        return Err(Fail::from("a field that has no place"));
    }
    let Ok(content) = sheet.read(field) else {
        return Err(Fail::from("a field that is not read"));
    };
    if !is_plain(&content) {
        return Err(Fail::from("a field that is neither a number nor a formula"));
    }
    Ok(content)
}

/// The edit by which a cell is to hold what a field says.
pub(crate) fn sets(alloc: Global, sheet: &mut Sheet, name: &str, field: &str) -> Result<Edit, Fail>
    ensures { IfOk result (λ edit. (labels : ℕ) → HaveLabels labels edit) }
{
    let cell = cell(name)?;
    let content = content_of(sheet, field)?;
    Ok(Edit::one(alloc, Change { cell, content })?)
}
