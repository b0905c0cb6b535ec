ghost use Rattle.std.specs.Prelude.{◌≡◌, false};
ghost use Rattle.sheet_refs.specs.Cells.{Position};
ghost use Rattle.value_core.specs.declared.value.Value.{Value as AnyValue};
ghost use Rattle.value_core.specs.Values.{code_of};
ghost use Rattle.formula_syntax.specs.Tree.{references_of};
ghost use Rattle.formula_eval.specs.Meaning.{IsFormulaValue};
ghost use Rattle.sheet_model.specs.Sheets.{content_value};
ghost use Rattle.sheet_model.specs.Values.{content_references, step_content};
ghost use Rattle.recalc_workers.specs.Inputs.{AreCodes, AgreeWith, HaveNoCircular, HaveWords, word_in};

use crate::inputs::InputList;
use crate::lookups::Listed;
use formula_eval::{Stack, eval, eval_known};
use formula_syntax::Formula;
use sheet_model::Content;
use sheet_refs::Sizes;
use value_core::{CodeWord, Value, code};

// Whether one of the words is the code of `#CIRC!`.
fn has_circular_word(words: &[u64]) -> bool
    ensures { result ≡ false → HaveNoCircular words.now }
{
    let circular = CodeWord::CIRCULAR.get();
    words.contains(&circular)
}

// The value of a formula over the words in the list, which has one for each cell that the formula names. One look
// through the words tells whether any is that of `#CIRC!`; where none is, no cell stops the evaluation, and the formula
// isn't gone through before it is evaluated.
fn evaluate_formula(sizes: Sizes, formula: &Formula, list: &InputList, stack: &mut Stack) -> Value
    requires codes { AreCodes list.now.words.items }
    requires known { HaveWords sizes (references_of formula.now) list.now.parts.items list.now.words.items }
    ensures { IsFormulaValue sizes (word_in list.now.parts.items list.now.words.items) formula.now result }
{
    let listed = Listed::new(sizes, &list.parts, &list.words);
    if !has_circular_word(&list.words) {
        return eval_known(formula, &listed, stack);
    }
    match eval(formula, &listed, stack) {
        Ok(value) => value,
        Err(_) => unreachable!(),
    }
}

/// The code of the value that a content gives over the words in the list, which has one for each cell that the content
/// names.
pub(crate) fn evaluate(sizes: Sizes, content: &Content, list: &InputList, stack: &mut Stack) -> u64
    requires codes { AreCodes list.now.words.items }
    requires known { HaveWords sizes (content_references (content_value content.now))
        list.now.parts.items list.now.words.items }
    ensures { (values : Position → AnyValue)
        → AgreeWith sizes (content_references (content_value content.now))
        list.now.parts.items list.now.words.items values
        → result ≡ code_of (step_content sizes values (content_value content.now)) }
{
    match content {
        Content::Empty => code(Value::Empty),
        Content::Number(number) => code(Value::Number(*number)),
        Content::Truth(truth) => code(Value::Truth(*truth)),
        Content::Error(kind) => code(Value::Error(*kind)),
        Content::Label(place) => code(Value::Label(*place)),
        Content::Formula(formula) => code(evaluate_formula(sizes, formula, list, stack)),
    }
}
