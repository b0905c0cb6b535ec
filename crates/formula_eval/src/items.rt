ghost use Rattle.std.specs.Prelude.{◌≡◌};
ghost use Rattle.formula_eval.specs.Functions.{contribution as contribution_of};
ghost use Rattle.formula_eval.specs.Functions.{number_in as number_of_item};
ghost use Rattle.formula_eval.specs.Functions.{truth_in as truth_of_item};
ghost use Rattle.formula_eval.specs.Functions.{count_in as count_of_item};

use formula_syntax::Function;
use value_core::{ErrorKind, Value, Whole, as_number, as_truth, truth_number};

/// One value of a sequence: that of a cell of a range, which isn't empty, or that of another parameter.
#[derive(Clone, Copy)]
pub(crate) enum Item {
    Cell(Value),
    Alone(Value),
}

/// What an item adds to the sequence of a function: a number, nothing or an error. A truth adds 0 or 1. The
/// functions of the last line take no sequence.
///
/// It is a part of the loop over the cells of a range.
#[inline(always)]
pub(crate) fn contribution(function: Function, item: Item) -> Result<Option<Whole>, ErrorKind>
    ensures { result ≡ contribution_of function item }
{
    match function {
        Function::Sum | Function::Product | Function::Min | Function::Max => number_in(item),
        Function::Count => count_in(item),
        Function::Counta => Ok(Some(Whole::ONE)),
        Function::And | Function::Or => truth_in(item),
        Function::Countblank
        | Function::If
        | Function::Iferror
        | Function::Not
        | Function::Abs
        | Function::Sign
        | Function::Mod
        | Function::Quotient
        | Function::Iserror
        | Function::Isnumber
        | Function::Islogical
        | Function::Istext
        | Function::Isblank
        | Function::Na
        | Function::Countif
        | Function::Sumif
        | Function::Match => number_in(item),
    }
}

fn number_in(item: Item) -> Result<Option<Whole>, ErrorKind>
    ensures { result ≡ number_of_item item }
{
    match &item {
        Item::Cell(Value::Number(number)) => Ok(Some(*number)),
        Item::Cell(Value::Error(kind)) => Err(*kind),
        Item::Cell(_) => Ok(None),
        Item::Alone(value) => match as_number(*value) {
            Ok(number) => Ok(Some(number)),
            Err(kind) => Err(kind),
        },
    }
}

fn truth_in(item: Item) -> Result<Option<Whole>, ErrorKind>
    ensures { result ≡ truth_of_item item }
{
    match &item {
        Item::Cell(Value::Error(kind)) => Err(*kind),
        Item::Cell(Value::Empty | Value::Label(_)) => Ok(None),
        Item::Cell(value) | Item::Alone(value) => match as_truth(*value) {
            Ok(truth) => Ok(Some(truth_number(truth))),
            Err(kind) => Err(kind),
        },
    }
}

fn count_in(item: Item) -> Result<Option<Whole>, ErrorKind>
    ensures { result ≡ count_of_item item }
{
    match &item {
        Item::Cell(Value::Number(_)) | Item::Alone(Value::Number(_)) => Ok(Some(Whole::ONE)),
        _ => Ok(None),
    }
}
