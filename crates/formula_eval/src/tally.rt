ghost use Rattle.std.specs.Prelude.{◌≡◌, ℤ, ◌+◌, ◌*ℤ◌, ◌<◌, ◌≤◌, ◌^◌, [], ◌∷◌};
ghost use Rattle.std.specs.Prelude.{OnOk, IfErr, Err, if◌then◌else◌};
ghost use Rattle.formula_syntax.specs.Functions.{shape_of};
ghost use Rattle.formula_syntax.specs.declared.functions.ParameterKind.TheVariants.{Sequence};
ghost use Rattle.formula_eval.specs.Functions.{contributions};
ghost use Rattle.value_core.specs.Conversions.{in_range as value_in_range};
ghost use Rattle.formula_eval.specs.Tallies.{Tallies, KeepsProduct, KeepsOneMore, TalliesOneMore};
ghost use Rattle.formula_eval.specs.Tallies.{IsTotalOf};
ghost use Rattle.formula_eval.specs.Tallies.{IsTruthOfSome};
ghost use Rattle.formula_eval.specs.Tallies.{AddsItems, IsBounded};
ghost use Rattle.formula_eval.specs.Tallies.{sum_size};
ghost use Rattle.std.specs.Int.{int_min, int_max};

use crate::items::{Item, contribution};
use formula_syntax::Function;
use value_core::{ErrorKind, Value, Whole, in_range};

/// What a function keeps of the numbers of its sequence. Least, Greatest, All and Any are 0 of none.
#[derive(Clone, Copy)]
pub(crate) enum Running {
    Sum(i128),
    /// None: out of range, and so it stays until a 0 comes.
    Product(Option<Whole>),
    Least(Whole),
    Greatest(Whole),
    All(Whole),
    Any(Whole),
    Count,
}

/// The numbers of a sequence so far: how many there are, and what is kept of them.
#[derive(Clone, Copy)]
pub(crate) struct Tally {
    pub(crate) count: u64,
    pub(crate) running: Running,
}

impl Tally {
    /// The tally of no numbers. The functions of the last line take no sequence.
    pub(crate) fn new(function: Function) -> Tally
        requires { (shape_of function).place ≡ Sequence }
        ensures tallies { Tallies function result [] }
        ensures bounded { IsBounded result }
        ensures count { result.count ≡ 0 }
    {
        let running = match function {
            Function::Sum => Running::Sum(0),
            Function::Product => Running::Product(Some(Whole::ONE)),
            Function::Min => Running::Least(Whole::ZERO),
            Function::Max => Running::Greatest(Whole::ZERO),
            Function::And => Running::All(Whole::ZERO),
            Function::Or => Running::Any(Whole::ZERO),
            Function::Count | Function::Counta => Running::Count,
            Function::Countblank
            | Function::If
            | Function::Iferror
            | Function::Not
            | Function::Abs
            | Function::Sign
            | Function::Mod
            | Function::Quotient
            | Function::Iserror
            | Function::Isnumber
            | Function::Islogical
            | Function::Istext
            | Function::Isblank
            | Function::Na
            | Function::Countif
            | Function::Sumif
            | Function::Match => Running::Count,
        };
        Tally { count: 0, running }
    }

    /// The tally with one more number.
    pub(crate) fn with(&self, number: Whole) -> Tally
        requires bounded { IsBounded self.now }
        requires room { self.now.count < 2 ^ 60 }
        ensures tallies { TalliesOneMore self.now number result }
        ensures bounded { IsBounded result }
        ensures count { result.count ≡ self.now.count + 1 }
    {
        Tally {
            count: self.count + 1,
            running: self.running.with(self.count == 0, number),
        }
    }
}

impl Tally {
    /// The function's result of the numbers.
    pub(crate) fn finish(&self) -> Value
        requires { self.now.count < 2 ^ 53 }
        ensures { IsTotalOf self.now result }
    {
        match &self.running {
            Running::Sum(total) => sum_value(*total),
            Running::Product(product) => product_value(*product),
            Running::Least(m) | Running::Greatest(m) => Value::Number(*m),
            Running::All(m) | Running::Any(m) => truth_of_some(self.count, *m),
            Running::Count => in_range(self.count as i64),
        }
    }
}

/// Adds an item to the sequence of a function; answers the item's error, where it hands one on.
///
/// It is a part of the loop over the cells of a range, whose time is mostly spent here.
#[inline(always)]
pub(crate) fn add(function: Function, item: Item, tally: &mut Tally) -> Result<(), ErrorKind>
    requires bounded { IsBounded tally.old }
    requires room { tally.old.count < 2 ^ 60 }
    ensures ok { OnOk result (AddsItems function tally.old tally.new (item ∷ [])) }
    ensures err { IfErr result (λ kind. contributions function (item ∷ []) ≡ Err kind) }
{
    match contribution(function, item) {
        Ok(Some(number)) => *tally = tally.with(number),
        Ok(None) => {}
        Err(kind) => return Err(kind),
    }
    Ok(())
}

impl Running {
    // What is kept with one more number, given whether there was none.
    fn with(&self, none: bool, number: Whole) -> Running
        requires { sum_size self.now < 2 ^ 120 }
        ensures keeps { KeepsOneMore self.now none number result }
        ensures size { sum_size result ≤ sum_size self.now + 2 ^ 53 }
    {
        match self {
            Running::Sum(total) => Running::Sum(*total + i128::from(number.get())),
            Running::Product(product) => Running::Product(times(*product, number)),
            Running::Least(m) => Running::Least(lesser(none, *m, number)),
            Running::Greatest(m) => Running::Greatest(greater(none, *m, number)),
            Running::All(m) => Running::All(lesser(none, *m, number)),
            Running::Any(m) => Running::Any(greater(none, *m, number)),
            Running::Count => Running::Count,
        }
    }
}

// The product with one more factor; None where it is out of range.
fn times(product: Option<Whole>, factor: Whole) -> Option<Whole>
    ensures { (exact : ℤ) → KeepsProduct product exact → KeepsProduct result (exact *ℤ factor) }
{
    match &product {
        Some(product) => times_whole(*product, factor),
        None if factor.get() == 0 => Some(Whole::ZERO),
        None => None,
    }
}

fn times_whole(left: Whole, right: Whole) -> Option<Whole>
    ensures { KeepsProduct result (left *ℤ right) }
{
    let product = left.get().checked_mul(right.get())?;
    Whole::new(product)
}

// The lesser of two numbers; the second where there is no first one.
fn lesser(none: bool, first: Whole, second: Whole) -> Whole
    ensures { result ≡ (if none then second else int_min first second) }
{
    if none || second.get() < first.get() {
        second
    } else {
        first
    }
}

// The greater of two numbers; the second where there is no first one.
fn greater(none: bool, first: Whole, second: Whole) -> Whole
    ensures { result ≡ (if none then second else int_max first second) }
{
    if none || first.get() <= second.get() {
        second
    } else {
        first
    }
}

fn sum_value(total: i128) -> Value
    ensures { result ≡ value_in_range total }
{
    match i64::try_from(total) {
        Ok(total) => in_range(total),
        Err(_) => Value::Error(ErrorKind::Num),
    }
}

fn product_value(product: Option<Whole>) -> Value
    ensures { (exact : ℤ) → KeepsProduct product exact → result ≡ value_in_range exact }
{
    match &product {
        Some(product) => in_range(product.get()),
        None => Value::Error(ErrorKind::Num),
    }
}

// The truth that a number stands for, where there are any numbers.
fn truth_of_some(count: u64, number: Whole) -> Value
    ensures { IsTruthOfSome count number result }
{
    if count == 0 {
        Value::Error(ErrorKind::Value)
    } else {
        Value::Truth(number.get() != 0)
    }
}
