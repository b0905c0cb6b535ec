ghost use Rattle.std.specs.Prelude.{◌≡◌, length, map, IfOk, OnOk};
ghost use Rattle.sheet_refs.specs.Sizes.{cell_count};
ghost use Rattle.sheet_model.specs.Parts.{AddsParts};
ghost use Rattle.sheet_model.specs.Sheets.{content_value};
ghost use Rattle.sheet_model.specs.Values.{content_references, step_content};
ghost use Rattle.sheet_model.specs.Walks.{ArePlainInputs, first_state, known_values};
ghost use Rattle.sheet_model.specs.Words.{AreWords, IsCodeWord, Known as KnownState};
ghost use Rattle.sheet_model.specs.Words.{cell_state, states_of};

use crate::content::Content;
use crate::known::Known;
use crate::parts::{Part, add_in_order};
use formula_eval::{Stack, eval_known};
use sheet_refs::Sizes;
use std::alloc::{AllocError, Global};
use value_core::{CodeWord, Value, code};

// The word of a cell before the walk: constants are known, and formulas not looked at.
fn first_word(content: &Content) -> u64
    ensures state { cell_state result ≡ first_state (content_value content.now) }
    ensures word { IsCodeWord result }
{
    match content {
        Content::Empty => code(Value::Empty),
        Content::Number(number) => code(Value::Number(*number)),
        Content::Truth(truth) => code(Value::Truth(*truth)),
        Content::Error(kind) => code(Value::Error(*kind)),
        Content::Label(place) => code(Value::Label(*place)),
        Content::Formula(_) => CodeWord::UNSEEN.get(),
    }
}

/// The words of the cells before the walk.
pub(crate) fn first_words(alloc: Global, contents: &[Content]) -> Result<Vec<u64>, AllocError>
    ensures states { IfOk result
        (λ words. states_of words.items ≡ map first_state (map content_value contents.now)) }
    ensures words { IfOk result (λ words. AreWords words.items) }
{
    let mut words = Vec::with_capacity(alloc, contents.len())?;
    for content in contents {
        words.push(first_word(content))?;
    }
    Ok(words)
}

/// Puts the parts of the ranges that a content names, within a rectangle of these sizes, behind the others. It takes
/// memory only where the list has no room for them: a formula names at most 255.
pub fn add_content(sizes: Sizes, content: &Content, parts: &mut Vec<Part>) -> Result<(), AllocError>
    ensures { OnOk result (AddsParts sizes (content_references (content_value content.now))
        parts.old.items parts.new.items) }
{
    match content {
        Content::Formula(formula) => add_in_order(sizes, formula.root(), parts),
        _ => Ok(()),
    }
}

/// The word of the value that a content has over the known values, where evaluation can read past
/// each cell of the rectangle that it names.
pub(crate) fn evaluate(sizes: Sizes, words: &[u64], content: &Content, stack: &mut Stack) -> u64
    requires count { length words.now ≡ cell_count sizes }
    requires words { AreWords words.now }
    requires plain { ArePlainInputs sizes (states_of words.now) (content_value content.now) }
    ensures state { cell_state result ≡ KnownState (step_content sizes
        (known_values sizes (states_of words.now)) (content_value content.now)) }
    ensures word { IsCodeWord result }
{
    let Content::Formula(formula) = content else {
        return first_word(content);
    };
    let known = Known::new(sizes, words);
    code(eval_known(formula, &known, stack))
}
