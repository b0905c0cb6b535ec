ghost use Rattle.std.specs.Prelude.{◌≡◌, ◌<◌, ◌≤◌, ◌*ℤ◌, nat_abs, SomeIff};
ghost use Rattle.value_core.specs.Wholes.{IsWhole};
ghost use Rattle.value_core.specs.Conversions.{in_range as value_in_range};
ghost use Rattle.value_core.specs.Operators.{binary_of, prefix_of, calculation, comparison};
ghost use Rattle.value_core.specs.Operators.{by_kind as by_kind_of, beside as beside_of};
ghost use Rattle.value_core.specs.Operators.{unordered_value};
ghost use Rattle.value_core.specs.Operators.{on_numbers as on_numbers_of, quotient as quotient_of};
ghost use Rattle.value_core.specs.Operators.{power_value, is_comparison as is_comparing, negation};
ghost use Rattle.value_core.specs.Powers.{power as power_of};

use crate::convert::{as_number, in_range, never_empty, truth_number};
use crate::value::{ErrorKind, Value};
use crate::whole::Whole;

/// An operator between two operands.
#[derive(Clone, Copy, Debug, PartialEq, Eq)]
pub enum BinaryOp {
    /// The sum, written `+`.
    Add,
    /// The difference, written `-`.
    Sub,
    /// The product, written `*`.
    Mul,
    /// The quotient, written `/`.
    Div,
    /// The power, written `^`.
    Power,
    /// Whether both are equal, written `=`.
    Equal,
    /// Whether they are unequal, written `<>`.
    Unequal,
    /// Whether the left one is less, written `<`.
    Less,
    /// Whether the left one is less or equal, written `<=`.
    LessEqual,
    /// Whether the left one is greater, written `>`.
    Greater,
    /// Whether the left one is greater or equal, written `>=`.
    GreaterEqual,
}

/// An operator before its operand.
#[derive(Clone, Copy, Debug, PartialEq, Eq)]
pub enum PrefixOp {
    /// The operand unchanged, written `+`.
    Plus,
    /// The negative, written `-`.
    Minus,
}

/// What an operator gives for two operands, of which the left one's error wins, and then the right one's.
///
/// The five operators of arithmetic take their operands as numbers and give `#NUM!` for a result out of
/// range; `/` gives `#DIV/0!` for a right operand 0, and `#NUM!` where the quotient isn't whole; `^` gives
/// 1 for a right operand 0 and `#NUM!` for one below 0.
///
/// `=` and `<>` tell whether two numbers, truths or labels are the same; values of different kinds are
/// not. The other comparisons are of two numbers or of two truths, FALSE before TRUE, and give `#VALUE!`
/// for labels and different kinds. In a comparison Empty counts as FALSE beside a truth, as a kind of its
/// own beside a label, and else as 0.
///
/// It takes no memory, and at most 53 multiplications.
pub fn binary(op: BinaryOp, a: Value, b: Value) -> Value
    ensures { result ≡ binary_of op a b }
{
    if is_comparison(op) {
        compare(op, a, b)
    } else {
        calculate(op, as_number(a), as_number(b))
    }
}

/// What an operator before its operand gives: `+` the operand, with 0 in place of Empty, and `-` the
/// negative of the operand as a number.
pub fn prefix(op: PrefixOp, a: Value) -> Value
    ensures { result ≡ prefix_of op a }
{
    match op {
        PrefixOp::Plus => never_empty(a),
        PrefixOp::Minus => negative(as_number(a)),
    }
}

fn negative(number: Result<Whole, ErrorKind>) -> Value
    ensures { result ≡ negation number }
{
    match &number {
        Ok(number) => in_range(-number.get()),
        Err(kind) => Value::Error(*kind),
    }
}

fn is_comparison(op: BinaryOp) -> bool
    ensures { result ≡ is_comparing op }
{
    match op {
        BinaryOp::Add | BinaryOp::Sub | BinaryOp::Mul | BinaryOp::Div | BinaryOp::Power => false,
        _ => true,
    }
}

fn calculate(op: BinaryOp, left: Result<Whole, ErrorKind>, right: Result<Whole, ErrorKind>) -> Value
    ensures { result ≡ calculation op left right }
{
    match (&left, &right) {
        (Err(kind), _) => Value::Error(*kind),
        (Ok(_), Err(kind)) => Value::Error(*kind),
        (Ok(left), Ok(right)) => on_numbers(op, *left, *right),
    }
}

fn compare(op: BinaryOp, left: Value, right: Value) -> Value
    ensures { result ≡ comparison op left right }
{
    match (&left, &right) {
        (Value::Error(kind), _) => Value::Error(*kind),
        (_, Value::Error(kind)) => Value::Error(*kind),
        _ => compare_kinds(op, beside(left, right), beside(right, left)),
    }
}

// An operand as it counts in a comparison beside the other one.
fn beside(operand: Value, other: Value) -> Value
    ensures { result ≡ beside_of operand other }
{
    match (&operand, &other) {
        (Value::Empty, Value::Truth(_)) => Value::Truth(false),
        (Value::Empty, Value::Label(_)) => Value::Empty,
        (Value::Empty, _) => Value::Number(Whole::ZERO),
        _ => operand,
    }
}

fn compare_kinds(op: BinaryOp, left: Value, right: Value) -> Value
    ensures { result ≡ by_kind_of op left right }
{
    match (&left, &right) {
        (Value::Number(left), Value::Number(right)) => on_numbers(op, *left, *right),
        (Value::Truth(left), Value::Truth(right)) => {
            on_numbers(op, truth_number(*left), truth_number(*right))
        }
        (Value::Label(left), Value::Label(right)) => compare_unordered(op, left == right),
        _ => compare_unordered(op, false),
    }
}

// A comparison of values that have no order, given whether they are the same.
fn compare_unordered(op: BinaryOp, same: bool) -> Value
    ensures { result ≡ unordered_value op same }
{
    match op {
        BinaryOp::Equal => Value::Truth(same),
        BinaryOp::Unequal => Value::Truth(!same),
        _ => Value::Error(ErrorKind::Value),
    }
}

fn on_numbers(op: BinaryOp, left: Whole, right: Whole) -> Value
    ensures { result ≡ on_numbers_of op left right }
{
    let (m, n) = (left.get(), right.get());
    match op {
        BinaryOp::Add => in_range(m + n),
        BinaryOp::Sub => in_range(m - n),
        BinaryOp::Mul => product(left, right),
        BinaryOp::Div => quotient(m, n),
        BinaryOp::Power => power(left, right),
        BinaryOp::Equal => Value::Truth(m == n),
        BinaryOp::Unequal => Value::Truth(m != n),
        BinaryOp::Less => Value::Truth(m < n),
        BinaryOp::LessEqual => Value::Truth(m <= n),
        BinaryOp::Greater => Value::Truth(m > n),
        BinaryOp::GreaterEqual => Value::Truth(m >= n),
    }
}

// The product; None exactly where it is out of range.
fn times(left: Whole, right: Whole) -> Option<Whole>
    ensures { SomeIff result (IsWhole (left *ℤ right)) (left *ℤ right) }
{
    let product = left.get().checked_mul(right.get())?;
    Whole::new(product)
}

fn product(left: Whole, right: Whole) -> Value
    ensures { result ≡ value_in_range (left *ℤ right) }
{
    match times(left, right) {
        Some(product) => Value::Number(product),
        None => Value::Error(ErrorKind::Num),
    }
}

fn quotient(left: i64, right: i64) -> Value
    requires { IsWhole left }
    ensures { result ≡ quotient_of left right }
{
    if right == 0 {
        Value::Error(ErrorKind::Div0)
    } else if left % right == 0 {
        in_range(left / right)
    } else {
        Value::Error(ErrorKind::Num)
    }
}

fn power(base: Whole, exponent: Whole) -> Value
    ensures { result ≡ power_value base exponent }
{
    let exponent = exponent.get();
    if exponent < 0 {
        Value::Error(ErrorKind::Num)
    } else if base.get().unsigned_abs() < 2 {
        power_of_unit(base, exponent.unsigned_abs())
    } else {
        repeated_product(base, exponent.unsigned_abs())
    }
}

// A power of -1, 0 or 1, which turns on whether the exponent is odd.
fn power_of_unit(base: Whole, exponent: u64) -> Value
    requires { nat_abs base < 2 }
    ensures { result ≡ value_in_range (power_of base exponent) }
{
    if exponent == 0 {
        in_range(1)
    } else if exponent % 2 == 1 {
        in_range(base.get())
    } else {
        product(base, base)
    }
}

// A power of another base, which leaves the range after at most 53 products.
fn repeated_product(base: Whole, exponent: u64) -> Value
    requires { 2 ≤ nat_abs base }
    ensures { result ≡ value_in_range (power_of base exponent) }
{
    let mut product = Whole::ONE;
    for _done in 0..exponent {
        match times(base, product) {
            Some(next) => product = next,
            None => return Value::Error(ErrorKind::Num),
        }
    }
    in_range(product.get())
}
