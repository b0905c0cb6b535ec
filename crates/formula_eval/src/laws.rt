ghost use Rattle.formula_syntax.specs.declared.functions.Function.TheVariants.{Mod, Quotient};
ghost use Rattle.formula_eval.specs.Laws.{FormulasGiveValues, FormulasAreFilled};
ghost use Rattle.formula_eval.specs.Laws.{CountsAreAllCells, GivesOfTwo, RefusesZero};
ghost use Rattle.formula_eval.specs.Laws.{IsRemainder, IsCutQuotient, RemainderRows, QuotientRows};
ghost use Rattle.formula_eval.specs.Laws.{ReferencedByRanges, KnownWhereAllAreHeld};

/// What holds of formulas: over values in range each has a value in range, and none has the value Empty.
///
/// And of functions: the cells of a range are those that COUNTA counts and those that COUNTBLANK counts.
/// Of numbers in range, MOD gives what is left of the first over a multiple of the second, between 0 and
/// the second; QUOTIENT gives the multiple from which to the first a part is left that is smaller than the
/// second, and 0 or of the first one's sign; and where the second is 0 both give `#DIV/0!`.
///
/// A formula names exactly the cells in the ranges of its references.
pub fn eval_laws()
    ensures in_range { FormulasGiveValues }
    ensures no_empty { FormulasAreFilled }
    ensures counts { CountsAreAllCells }
    ensures remainder { GivesOfTwo Mod IsRemainder }
    ensures remainder_by_zero { RefusesZero Mod }
    ensures quotient { GivesOfTwo Quotient IsCutQuotient }
    ensures quotient_by_zero { RefusesZero Quotient }
    ensures remainder_rows { RemainderRows }
    ensures quotient_rows { QuotientRows }
    ensures referenced { ReferencedByRanges }
    ensures known { KnownWhereAllAreHeld }
{}
