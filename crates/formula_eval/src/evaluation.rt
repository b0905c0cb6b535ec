ghost use Rattle.std.specs.Prelude.{◌≡◌, ◌↔◌, None, IfOk, IfErr, IsOk, IsErr, IsTrue};
ghost use Rattle.sheet_refs.specs.Sizes.{is_inside};
ghost use Rattle.value_core.specs.declared.value.Value.TheVariants.{Error};
ghost use Rattle.value_core.specs.declared.value.ErrorKind.TheVariants.{Circ};
ghost use Rattle.formula_eval.specs.Meaning.{IsFormulaValue, IsKnown, IsReferenced};
ghost use Rattle.formula_eval.specs.Seen.{IsPlainTree};
ghost use Rattle.formula_eval.specs.Stops.{stop_cell, stop_code};

use crate::inputs::{Inputs, Missing};
use crate::machine::value;
use crate::scan::{Stop, scan};
use crate::stack::Stack;
use formula_syntax::Formula;
use sheet_refs::Cell;
use value_core::{ErrorKind, Value, never_empty};

/// The value of a formula: `#CIRC!` where a cell that it names has that value, and else what it means. A
/// cell past the rectangle is empty.
///
/// Refuses only with a cell that the formula names, that lies in the rectangle and whose value isn't
/// known, and answers a value wherever all such cells are known.
///
/// It takes no memory. It visits each node a few times at most, and looks at each cell of the rectangle at most four
/// times each time that the formula names it: the time is in proportion to both. Cells past the rectangle take no time.
/// Left operands and signs are walked by loops; right operands and parameters by calls, which nest no deeper than
/// parentheses and the levels of operators do.
pub fn eval<I: Inputs>(formula: &Formula, inputs: &I, stack: &mut Stack) -> Result<Value, Missing>
    ensures value { IfOk result
        (IsFormulaValue (I.sizes inputs.now) (I.codes inputs.now) formula.now) }
    ensures known { IsKnown (I.sizes inputs.now) (I.codes inputs.now) formula.now → IsOk result }
    ensures missing_referenced { IfErr result
        (λ missing. IsReferenced formula.now missing.cell) }
    ensures missing_inside { IfErr result
        (λ missing. IsTrue (is_inside (I.sizes inputs.now) missing.cell)) }
    ensures missing_unknown { IfErr result (λ missing. I.codes inputs.now missing.cell ≡ None) }
{
    if let Err(stop) = scan(inputs, formula.root()) {
        return answer_at(stop);
    }
    Ok(eval_known(formula, inputs, stack))
}

/// The same of a formula of which it is known that evaluation can read past each cell of the rectangle that
/// it names: its value is known, and isn't `#CIRC!`. It looks at each cell at most three times each time that
/// the formula names it, and takes no memory.
pub fn eval_known<I: Inputs>(formula: &Formula, inputs: &I, stack: &mut Stack) -> Value
    requires { IsPlainTree (I.sizes inputs.now) (I.codes inputs.now) formula.now }
    ensures { IsFormulaValue (I.sizes inputs.now) (I.codes inputs.now) formula.now result }
{
    let value = value(inputs, formula.root(), &mut stack.pending);
    never_empty(value)
}

// What evaluation answers at a cell that it can't read past.
fn answer_at(stop: Stop) -> Result<Value, Missing>
    ensures circular { IfOk result (λ v. v ≡ Error Circ) }
    ensures missing { IfErr result (λ missing. missing.cell ≡ stop_cell stop) }
    ensures kind { stop_code stop ≡ None ↔ IsErr result }
{
    match &stop {
        Stop::Missing(cell) => {
            let cell: Cell = *cell;
            Err(Missing { cell })
        }
        Stop::Circular(_) => Ok(Value::Error(ErrorKind::Circ)),
    }
}
