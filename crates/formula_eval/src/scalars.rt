ghost use Rattle.std.specs.Prelude.{◌≡◌, pos, not, int_div, nat_abs};
ghost use Rattle.value_core.specs.declared.value.Value.TheVariants.{Number, Truth};
ghost use Rattle.value_core.specs.Wholes.{IsWhole};
ghost use Rattle.formula_eval.specs.Functions.{scalar_value as scalar_value_of};
ghost use Rattle.formula_eval.specs.Functions.{floor_remainder as remainder_of, or_error};
ghost use Rattle.formula_eval.specs.Functions.{unless_error as value_unless_error, choice, on_both};
ghost use Rattle.formula_eval.specs.Functions.{division_value, sign_number};

use formula_syntax::Function;
use value_core::{ErrorKind, Value, Whole, as_number, as_truth, in_range};

/// What a function of scalars gives, of which one that isn't written is FALSE. The functions of the last
/// line take ranges.
pub(crate) fn scalar_value(function: Function, first: Value, second: Value, third: Value) -> Value
    ensures { result ≡ scalar_value_of function first second third }
{
    match function {
        Function::If => choose(as_truth(first), second, third),
        Function::Iferror => unless_error(first, second),
        Function::Not => opposite(as_truth(first)),
        Function::Abs => magnitude(as_number(first)),
        Function::Sign => sign(as_number(first)),
        Function::Mod => modulo(as_number(first), as_number(second)),
        Function::Quotient => quotient(as_number(first), as_number(second)),
        Function::Iserror => Value::Truth(matches!(&first, Value::Error(_))),
        Function::Isnumber => Value::Truth(matches!(&first, Value::Number(_))),
        Function::Islogical => Value::Truth(matches!(&first, Value::Truth(_))),
        Function::Istext => Value::Truth(matches!(&first, Value::Label(_))),
        Function::Isblank => Value::Truth(matches!(&first, Value::Empty)),
        Function::Na => Value::Error(ErrorKind::Na),
        Function::Sum
        | Function::Product
        | Function::Min
        | Function::Max
        | Function::Count
        | Function::Counta
        | Function::And
        | Function::Or
        | Function::Countblank
        | Function::Countif
        | Function::Sumif
        | Function::Match => Value::Error(ErrorKind::Na),
    }
}

fn choose(condition: Result<bool, ErrorKind>, yes: Value, no: Value) -> Value
    ensures { result ≡ or_error condition (λ truth. choice truth yes no) }
{
    match &condition {
        Err(kind) => Value::Error(*kind),
        Ok(true) => yes,
        Ok(false) => no,
    }
}

fn unless_error(value: Value, other: Value) -> Value
    ensures { result ≡ value_unless_error value other }
{
    match &value {
        Value::Error(_) => other,
        _ => value,
    }
}

fn opposite(truth: Result<bool, ErrorKind>) -> Value
    ensures { result ≡ or_error truth (λ truth. Truth (not truth)) }
{
    match &truth {
        Err(kind) => Value::Error(*kind),
        Ok(truth) => Value::Truth(!*truth),
    }
}

fn magnitude(number: Result<Whole, ErrorKind>) -> Value
    ensures { result ≡ or_error number (λ n. Number (pos (nat_abs n))) }
{
    match &number {
        Err(kind) => Value::Error(*kind),
        Ok(number) => in_range(number.get().abs()),
    }
}

fn sign(number: Result<Whole, ErrorKind>) -> Value
    ensures { result ≡ or_error number (λ n. Number (sign_number n)) }
{
    match &number {
        Err(kind) => Value::Error(*kind),
        Ok(number) => in_range(number.get().signum()),
    }
}

fn modulo(left: Result<Whole, ErrorKind>, right: Result<Whole, ErrorKind>) -> Value
    ensures { result ≡ on_both left right (division_value remainder_of) }
{
    match (&left, &right) {
        (Err(kind), _) => Value::Error(*kind),
        (Ok(_), Err(kind)) => Value::Error(*kind),
        (Ok(left), Ok(right)) => floor_remainder(left.get(), right.get()),
    }
}

// The remainder with the divisor's sign.
fn floor_remainder(left: i64, right: i64) -> Value
    requires left { IsWhole left }
    requires right { IsWhole right }
    ensures { result ≡ division_value remainder_of left right }
{
    if right == 0 {
        Value::Error(ErrorKind::Div0)
    } else if right < 0 {
        in_range(-(-left).rem_euclid(-right))
    } else {
        in_range(left.rem_euclid(right))
    }
}

fn quotient(left: Result<Whole, ErrorKind>, right: Result<Whole, ErrorKind>) -> Value
    ensures { result ≡ on_both left right (division_value int_div) }
{
    match (&left, &right) {
        (Err(kind), _) => Value::Error(*kind),
        (Ok(_), Err(kind)) => Value::Error(*kind),
        (Ok(left), Ok(right)) => cut_quotient(left.get(), right.get()),
    }
}

// The quotient, cut towards zero.
fn cut_quotient(left: i64, right: i64) -> Value
    requires { IsWhole left }
    ensures { result ≡ division_value int_div left right }
{
    if right == 0 {
        Value::Error(ErrorKind::Div0)
    } else {
        in_range(left / right)
    }
}
