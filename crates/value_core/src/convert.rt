ghost use Rattle.std.specs.Prelude.{◌≡◌};
ghost use Rattle.value_core.specs.Conversions.{as_number as number_of, as_truth as truth_of};
ghost use Rattle.value_core.specs.Conversions.{in_range as value_in_range, never_empty as value_or_zero};
ghost use Rattle.value_core.specs.Conversions.{truth_number as truth_as_number};

use crate::value::{ErrorKind, Value};
use crate::whole::Whole;

/// A value as a number: Empty and FALSE are 0, and TRUE is 1. A label gives `#VALUE!`, and an error
/// itself.
pub fn as_number(value: Value) -> Result<Whole, ErrorKind>
    ensures { result ≡ number_of value }
{
    match &value {
        Value::Empty => Ok(Whole::ZERO),
        Value::Number(number) => Ok(*number),
        Value::Truth(truth) => Ok(truth_number(*truth)),
        Value::Error(kind) => Err(*kind),
        Value::Label(_) => Err(ErrorKind::Value),
    }
}

/// A truth as a number: 0 for FALSE and 1 for TRUE.
pub fn truth_number(truth: bool) -> Whole
    ensures { result ≡ truth_as_number truth }
{
    if truth { Whole::ONE } else { Whole::ZERO }
}

/// A value as a truth: a number is TRUE where it isn't 0, and Empty is FALSE. A label gives `#VALUE!`,
/// and an error itself.
pub fn as_truth(value: Value) -> Result<bool, ErrorKind>
    ensures { result ≡ truth_of value }
{
    match &value {
        Value::Empty => Ok(false),
        Value::Number(number) => Ok(number.get() != 0),
        Value::Truth(truth) => Ok(*truth),
        Value::Error(kind) => Err(*kind),
        Value::Label(_) => Err(ErrorKind::Value),
    }
}

/// A number as a value; `#NUM!` for one out of range.
pub fn in_range(number: i64) -> Value
    ensures { result ≡ value_in_range number }
{
    match Whole::new(number) {
        Some(number) => Value::Number(number),
        None => Value::Error(ErrorKind::Num),
    }
}

/// The value of an expression that is no reference, or of a formula: 0 in place of Empty.
pub fn never_empty(value: Value) -> Value
    ensures { result ≡ value_or_zero value }
{
    match &value {
        Value::Empty => Value::Number(Whole::ZERO),
        _ => value,
    }
}
