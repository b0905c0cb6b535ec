ghost use Rattle.std.specs.Prelude.{◌≡◌, ◌≤◌, ◌==◌, ◌&&◌, nat_lt};
ghost use Rattle.std.specs.Prelude.{false, length, MatchOption, Some, map};
ghost use Rattle.std.specs.Prelude.{if◌then◌else◌};
ghost use Rattle.sheet_refs.specs.Cells.{cells_of, height, width};
ghost use Rattle.formula_syntax.specs.Tree.{reference, tree_of, trees_of};
ghost use Rattle.formula_syntax.specs.declared.functions.Function.TheVariants.{Sum};
ghost use Rattle.formula_eval.specs.Functions.{blank_count, count_of, match_of, on_both};
ghost use Rattle.formula_eval.specs.Functions.{or_error, place_from, ranged_value as ranged_of};
ghost use Rattle.formula_eval.specs.Functions.{selected, sequence_value, sum_where};
ghost use Rattle.formula_eval.specs.Inputs.{IsPlainRange, seen_values};
ghost use Rattle.formula_eval.specs.Items.{cells_at, items_of_cells};
ghost use Rattle.formula_eval.specs.Meaning.{IsNoReference};
ghost use Rattle.formula_eval.specs.Seen.{AllPlain, seen_parameters};
ghost use Rattle.formula_eval.specs.Views.{HasNoRangeAt, HaveSameSizes, IsLine, IsRangeAt};

use crate::cells::{View, add_cells, equals, value_at};
use crate::inputs::Inputs;
use crate::scan::sizes;
use crate::tally::Tally;
use formula_syntax::{Function, Node};
use sheet_refs::{Range, Ref};
use value_core::{ErrorKind, Value, Whole, as_number, in_range};

/// What a function of ranges gives, by its parameters as they are written and as scalars. The functions of the last
/// line take no ranges. It looks at each cell of the rectangle at most twice each time that the parameters name it.
pub(crate) fn ranged_value<I: Inputs>(
    inputs: &I,
    function: Function,
    parameters: &[Node],
    first: Value,
    second: Value,
    third: Value,
) -> Value
    requires { AllPlain (I.sizes inputs.now) (I.codes inputs.now) (trees_of parameters.now) }
    ensures { result ≡ ranged_of function first second third
        (seen_parameters (I.sizes inputs.now) (I.codes inputs.now) (trees_of parameters.now)) }
{
    match function {
        Function::Countblank => count_blank(inputs, parameters),
        Function::Countif => count_if(inputs, parameters, as_number(second)),
        Function::Sumif => sum_if(inputs, parameters, as_number(second)),
        Function::Match => match_with(inputs, parameters, as_number(first), as_number(third)),
        Function::Sum
        | Function::Product
        | Function::Min
        | Function::Max
        | Function::Count
        | Function::Counta
        | Function::If
        | Function::Iferror
        | Function::And
        | Function::Or
        | Function::Not
        | Function::Abs
        | Function::Sign
        | Function::Mod
        | Function::Quotient
        | Function::Iserror
        | Function::Isnumber
        | Function::Islogical
        | Function::Istext
        | Function::Isblank
        | Function::Na => in_range(0),
    }
}

/// The reference that a tree is, if it is one.
pub(crate) fn as_reference(node: &Node) -> Option<Ref>
    ensures { MatchOption result
        (IsNoReference (tree_of node.now))
        (λ r. tree_of node.now ≡ reference r) }
{
    match node {
        Node::Reference(r) => Some(*r),
        Node::Number(_) | Node::Truth(_) | Node::Error(_) => None,
        Node::Prefix(_, _) => None,
        Node::Binary(_, _, _) => None,
        Node::Call(_, _) => None,
    }
}

// The range of a parameter, from 0, that is written as a reference.
fn range_at(parameters: &[Node], place: usize) -> Option<Range>
    ensures { MatchOption result
        (HasNoRangeAt parameters.now place) (IsRangeAt parameters.now place) }
{
    if place >= parameters.len() {
        return None;
    }
    let reference = as_reference(&parameters[place])?;
    Some(reference.range())
}

// How many cells of a range are empty, those past the rectangle too.
fn count_blank<I: Inputs>(inputs: &I, parameters: &[Node]) -> Value
    requires plain { AllPlain (I.sizes inputs.now) (I.codes inputs.now) (trees_of parameters.now) }
    ensures { result ≡ blank_count
        (seen_parameters (I.sizes inputs.now) (I.codes inputs.now) (trees_of parameters.now)) }
{
    if parameters.is_empty() {
        return in_range(0);
    }
    let Some(r) = as_reference(&parameters[0]) else {
        return in_range(0);
    };
    let mut tally = Tally::new(Function::Counta);
    let _ = add_cells(inputs, Function::Counta, &View::All, r.range(), &mut tally);
    in_range((r.range().cells() - tally.count) as i64)
}

fn count_if<I: Inputs>(inputs: &I, parameters: &[Node], number: Result<Whole, ErrorKind>) -> Value
    requires { AllPlain (I.sizes inputs.now) (I.codes inputs.now) (trees_of parameters.now) }
    ensures { result ≡ or_error number (λ n. count_of n (cells_at
        (seen_parameters (I.sizes inputs.now) (I.codes inputs.now) (trees_of parameters.now)) 0)) }
{
    match &number {
        Err(kind) => Value::Error(*kind),
        Ok(number) => count_in(inputs, parameters, *number),
    }
}

fn count_in<I: Inputs>(inputs: &I, parameters: &[Node], number: Whole) -> Value
    requires { AllPlain (I.sizes inputs.now) (I.codes inputs.now) (trees_of parameters.now) }
    ensures { result ≡ count_of number (cells_at
        (seen_parameters (I.sizes inputs.now) (I.codes inputs.now) (trees_of parameters.now)) 0) }
{
    match range_at(parameters, 0) {
        Some(range) => count_equal(inputs, number, range),
        None => in_range(0),
    }
}

// How many cells of a range are numbers that equal one.
fn count_equal<I: Inputs>(inputs: &I, number: Whole, range: Range) -> Value
    requires { IsPlainRange (I.sizes inputs.now) (I.codes inputs.now) range }
    ensures { result ≡ count_of number (Some
        (map (seen_values (I.sizes inputs.now) (I.codes inputs.now)) (cells_of range))) }
{
    let mut tally = Tally::new(Function::Counta);
    let view = View::Where(number, range, range);
    let _ = add_cells(inputs, Function::Counta, &view, range, &mut tally);
    in_range(tally.count as i64)
}

fn sum_if<I: Inputs>(inputs: &I, parameters: &[Node], number: Result<Whole, ErrorKind>) -> Value
    requires { AllPlain (I.sizes inputs.now) (I.codes inputs.now) (trees_of parameters.now) }
    ensures { result ≡ or_error number (sum_where
        (seen_parameters (I.sizes inputs.now) (I.codes inputs.now) (trees_of parameters.now))) }
{
    match &number {
        Err(kind) => Value::Error(*kind),
        Ok(number) => sum_in(inputs, parameters, *number),
    }
}

fn sum_in<I: Inputs>(inputs: &I, parameters: &[Node], number: Whole) -> Value
    requires { AllPlain (I.sizes inputs.now) (I.codes inputs.now) (trees_of parameters.now) }
    ensures { result ≡ sum_where
        (seen_parameters (I.sizes inputs.now) (I.codes inputs.now) (trees_of parameters.now)) number }
{
    let summed = summed_place(parameters);
    let Some(from) = range_at(parameters, 0) else {
        return in_range(0);
    };
    let Some(to) = range_at(parameters, summed) else {
        return in_range(0);
    };
    if !have_same_sizes(from, to) {
        return Value::Error(ErrorKind::Value);
    }
    sum_selected(inputs, number, from, to)
}

// The third parameter, or the first where no third one is written.
fn summed_place(parameters: &[Node]) -> usize
    ensures { result ≡ (if nat_lt 2 (length parameters.now) then 2 else 0) }
{
    if parameters.len() > 2 { 2 } else { 0 }
}

/// How many rows a range has.
pub(crate) fn rows_of(range: Range) -> u32
    ensures rows { result ≡ height range }
    ensures some { 1 ≤ result }
{
    range.tail().row() - range.head().row() + 1
}

/// How many columns a range has.
pub(crate) fn cols_of(range: Range) -> u32
    ensures cols { result ≡ width range }
    ensures some { 1 ≤ result }
{
    range.tail().col() - range.head().col() + 1
}

fn have_same_sizes(from: Range, to: Range) -> bool
    ensures { result ≡ ((height from == height to) && (width from == width to)) }
{
    rows_of(from) == rows_of(to) && cols_of(from) == cols_of(to)
}

// The sum of a range's numbers at the places at which those of another one equal a number, or the first error at such
// a place.
fn sum_selected<I: Inputs>(inputs: &I, number: Whole, from: Range, to: Range) -> Value
    requires plain { IsPlainRange (I.sizes inputs.now) (I.codes inputs.now) from }
    requires other { IsPlainRange (I.sizes inputs.now) (I.codes inputs.now) to }
    requires sizes { HaveSameSizes from to }
    ensures { result ≡ sequence_value Sum (items_of_cells (selected number
        (map (seen_values (I.sizes inputs.now) (I.codes inputs.now)) (cells_of from))
        (map (seen_values (I.sizes inputs.now) (I.codes inputs.now)) (cells_of to)))) }
{
    let mut tally = Tally::new(Function::Sum);
    let view = View::Where(number, from, to);
    if let Err(kind) = add_cells(inputs, Function::Sum, &view, from, &mut tally) {
        return Value::Error(kind);
    }
    tally.finish()
}

fn match_with<I: Inputs>(
    inputs: &I,
    parameters: &[Node],
    number: Result<Whole, ErrorKind>,
    kind: Result<Whole, ErrorKind>,
) -> Value
    requires { AllPlain (I.sizes inputs.now) (I.codes inputs.now) (trees_of parameters.now) }
    ensures { result ≡ on_both number kind (match_of
        (seen_parameters (I.sizes inputs.now) (I.codes inputs.now) (trees_of parameters.now))) }
{
    match (&number, &kind) {
        (Err(error), _) => Value::Error(*error),
        (Ok(_), Err(error)) => Value::Error(*error),
        (Ok(number), Ok(kind)) => match_in(inputs, parameters, *number, *kind),
    }
}

fn match_in<I: Inputs>(inputs: &I, parameters: &[Node], number: Whole, kind: Whole) -> Value
    requires { AllPlain (I.sizes inputs.now) (I.codes inputs.now) (trees_of parameters.now) }
    ensures { result ≡ match_of
        (seen_parameters (I.sizes inputs.now) (I.codes inputs.now) (trees_of parameters.now))
        number kind }
{
    if kind.get() != 0 {
        return Value::Error(ErrorKind::Value);
    }
    let Some(range) = range_at(parameters, 1) else {
        return Value::Error(ErrorKind::Na);
    };
    if is_block(range) {
        return Value::Error(ErrorKind::Na);
    }
    place_of(inputs, number, range)
}

// Whether a range has more than one row and more than one column.
fn is_block(range: Range) -> bool
    ensures block { result ≡ (nat_lt 1 (height range) && nat_lt 1 (width range)) }
    ensures line { result ≡ false → IsLine range }
{
    rows_of(range) > 1 && cols_of(range) > 1
}

// The place in a row or a column, from 1, of the first cell that is a number and equals one. It looks at each cell of
// the rectangle once, up to that one.
fn place_of<I: Inputs>(inputs: &I, number: Whole, range: Range) -> Value
    requires plain { IsPlainRange (I.sizes inputs.now) (I.codes inputs.now) range }
    requires line { IsLine range }
    ensures { result ≡ place_from 1 number
        (map (seen_values (I.sizes inputs.now) (I.codes inputs.now)) (cells_of range)) }
{
    let Some(part) = sizes(inputs).clip(range) else {
        return Value::Error(ErrorKind::Na);
    };
    let mut cell = part.head();
    for place in 0..part.cells() {
        if equals(number, value_at(inputs, cell)) {
            return in_range(place as i64 + 1);
        }
        cell = part.cell_behind(cell);
    }
    Value::Error(ErrorKind::Na)
}
