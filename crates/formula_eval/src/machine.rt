ghost use Rattle.std.specs.Prelude.{◌≡◌, ◌≤◌, ◌<◌, ◌+◌, ◌^◌, ◌++◌, length, vec_capacity};
ghost use Rattle.std.specs.Prelude.{List, IfErr, OnOk, Err};
ghost use Rattle.formula_syntax.specs.Tree.{tree_of, trees_of};
ghost use Rattle.formula_syntax.specs.Tree.{node_count, all_nodes};
ghost use Rattle.formula_syntax.specs.Functions.{shape_of};
ghost use Rattle.formula_syntax.specs.declared.functions.ParameterKind.TheVariants.{Sequence as SequencePlace};
ghost use Rattle.formula_eval.specs.Functions.{function_value, sequence_value, contributions};
ghost use Rattle.formula_eval.specs.Functions.{scalar_at};
ghost use Rattle.formula_eval.specs.Inputs.{IsPlainRange, seen_values};
ghost use Rattle.formula_eval.specs.Items.{items_of, items_of_parameter};
ghost use Rattle.formula_eval.specs.Meaning.{scalar_of_range};
ghost use Rattle.formula_eval.specs.Pending.{value_of_all, value_of_one, HasRoomFor};
ghost use Rattle.formula_eval.specs.Seen.{IsPlainTree, AllPlain, seen_value};
ghost use Rattle.formula_eval.specs.Seen.{seen_parameter, seen_parameters};
ghost use Rattle.formula_eval.specs.Tallies.{AddsItems, IsBounded};
ghost use Rattle.formula_eval.specs.declared.machine.Pending.{Pending as PendingOperator};

use crate::cells::{View, add_cells, value_or_empty};
use crate::inputs::Inputs;
use crate::items::Item;
use crate::ranges::{as_reference, ranged_value};
use crate::scalars::scalar_value;
use crate::tally::{Tally, add};
use formula_syntax::{Function, Node, ParameterKind};
use sheet_refs::Range;
use value_core::{BinaryOp, ErrorKind, PrefixOp, Value, binary, never_empty, prefix};

/// An operator that waits for the value of the operand at its right or of its left operand.
#[derive(Clone, Copy)]
pub(crate) enum Pending {
    Prefix(PrefixOp),
    /// The operator, and the value of its right operand.
    Binary(BinaryOp, Value),
}

fn apply(pending: Pending, value: Value) -> Value
    ensures { result ≡ value_of_one pending value }
{
    match &pending {
        Pending::Prefix(op) => prefix(*op, value),
        Pending::Binary(op, right) => binary(*op, value, *right),
    }
}

// Applies all that waits past the first ones, the last first.
fn unwind(pending: &mut Vec<Pending>, first: usize, value: Value) -> Value
    ensures value { (front rest : List PendingOperator)
        → pending.old.items ≡ front ++ rest → length front ≡ first
        → result ≡ value_of_all rest value }
    ensures items { (front rest : List PendingOperator)
        → pending.old.items ≡ front ++ rest → length front ≡ first → pending.new.items ≡ front }
    ensures capacity { vec_capacity pending.new ≡ vec_capacity pending.old }
{
    let mut value = value;
    while pending.len() > first {
        let Some(last) = pending.pop() else {
            return value;
        };
        value = apply(last, value);
    }
    value
}

// The value of a range where one value is wanted.
fn scalar_of<I: Inputs>(inputs: &I, range: Range) -> Value
    requires { IsPlainRange (I.sizes inputs.now) (I.codes inputs.now) range }
    ensures { result
        ≡ scalar_of_range (seen_values (I.sizes inputs.now) (I.codes inputs.now)) range }
{
    let head = range.head();
    if head != range.tail() {
        return Value::Error(ErrorKind::Value);
    }
    value_or_empty(inputs, head)
}

/// The value of a tree, over values that are all held. It goes down left operands by a loop, and looks at
/// each node once. What waited before waits afterwards. The time is in proportion to the nodes and to the cells of the
/// rectangle that they name.
#[cycle(machine)]
pub(crate) fn value<I: Inputs>(inputs: &I, root: &Node, pending: &mut Vec<Pending>) -> Value
    requires plain { IsPlainTree (I.sizes inputs.now) (I.codes inputs.now) (tree_of root.now) }
    requires small { node_count (tree_of root.now) ≤ 8192 }
    requires room { HasRoomFor pending.old (node_count (tree_of root.now)) }
    ensures value { result
        ≡ seen_value (I.sizes inputs.now) (I.codes inputs.now) (tree_of root.now) }
    ensures items { pending.new.items ≡ pending.old.items }
    ensures capacity { vec_capacity pending.new ≡ vec_capacity pending.old }
{
    let first = pending.len();
    let mut node = root;
    loop {
        match node {
            Node::Number(number) => return unwind(pending, first, Value::Number(*number)),
            Node::Truth(truth) => return unwind(pending, first, Value::Truth(*truth)),
            Node::Error(kind) => return unwind(pending, first, Value::Error(*kind)),
            Node::Reference(r) => {
                let value = scalar_of(inputs, r.range());
                return unwind(pending, first, value);
            }
            Node::Prefix(op, operand) => {
                pending.push_reserved(Pending::Prefix(*op));
                node = operand;
            }
            Node::Binary(op, left, right) => {
                let right = value(inputs, right, pending);
                pending.push_reserved(Pending::Binary(*op, right));
                node = left;
            }
            Node::Call(function, parameters) => {
                let value = call(inputs, *function, parameters.items(), pending);
                return unwind(pending, first, never_empty(value));
            }
        }
    }
}

// The value of a function of parameters.
#[cycle(machine)]
fn call<I: Inputs>(
    inputs: &I,
    function: Function,
    parameters: &[Node],
    pending: &mut Vec<Pending>,
) -> Value
    requires plain { AllPlain (I.sizes inputs.now) (I.codes inputs.now) (trees_of parameters.now) }
    requires small { all_nodes (trees_of parameters.now) < 8192 }
    requires room { HasRoomFor pending.old (all_nodes (trees_of parameters.now)) }
    ensures value { result ≡ function_value function
        (seen_parameters (I.sizes inputs.now) (I.codes inputs.now) (trees_of parameters.now)) }
    ensures items { pending.new.items ≡ pending.old.items }
    ensures capacity { vec_capacity pending.new ≡ vec_capacity pending.old }
{
    match function.place() {
        ParameterKind::Sequence => sequence(inputs, function, parameters, pending),
        ParameterKind::Ranges => {
            let first = scalar(inputs, parameters, 0, pending);
            let second = scalar(inputs, parameters, 1, pending);
            let third = scalar(inputs, parameters, 2, pending);
            ranged_value(inputs, function, parameters, first, second, third)
        }
        ParameterKind::Scalar => {
            let first = scalar(inputs, parameters, 0, pending);
            let second = scalar(inputs, parameters, 1, pending);
            let third = scalar(inputs, parameters, 2, pending);
            scalar_value(function, first, second, third)
        }
    }
}

// The value of a parameter, from 0; FALSE for one that isn't written.
#[cycle(machine)]
fn scalar<I: Inputs>(
    inputs: &I,
    parameters: &[Node],
    place: usize,
    pending: &mut Vec<Pending>,
) -> Value
    requires plain { AllPlain (I.sizes inputs.now) (I.codes inputs.now) (trees_of parameters.now) }
    requires small { all_nodes (trees_of parameters.now) < 8192 }
    requires room { HasRoomFor pending.old (all_nodes (trees_of parameters.now)) }
    ensures value { result ≡ scalar_at
        (seen_parameters (I.sizes inputs.now) (I.codes inputs.now) (trees_of parameters.now))
        place }
    ensures items { pending.new.items ≡ pending.old.items }
    ensures capacity { vec_capacity pending.new ≡ vec_capacity pending.old }
{
    if place < parameters.len() {
        value(inputs, &parameters[place], pending)
    } else {
        Value::Truth(false)
    }
}

// The value of a function of a sequence. It looks at each cell of the parameters' ranges once, up to the
// first error.
#[cycle(machine)]
fn sequence<I: Inputs>(
    inputs: &I,
    function: Function,
    parameters: &[Node],
    pending: &mut Vec<Pending>,
) -> Value
    requires place { (shape_of function).place ≡ SequencePlace }
    requires plain { AllPlain (I.sizes inputs.now) (I.codes inputs.now) (trees_of parameters.now) }
    requires small { all_nodes (trees_of parameters.now) < 8192 }
    requires room { HasRoomFor pending.old (all_nodes (trees_of parameters.now)) }
    ensures value { result ≡ sequence_value function
        (items_of
        (seen_parameters (I.sizes inputs.now) (I.codes inputs.now) (trees_of parameters.now))) }
    ensures items { pending.new.items ≡ pending.old.items }
    ensures capacity { vec_capacity pending.new ≡ vec_capacity pending.old }
{
    let mut tally = Tally::new(function);
    for parameter in parameters {
        if let Err(kind) = add_parameter(inputs, function, parameter, pending, &mut tally) {
            return Value::Error(kind);
        }
    }
    tally.finish()
}

// Adds a parameter to the sequence of a function.
#[cycle(machine)]
fn add_parameter<I: Inputs>(
    inputs: &I,
    function: Function,
    parameter: &Node,
    pending: &mut Vec<Pending>,
    tally: &mut Tally,
) -> Result<(), ErrorKind>
    requires plain { IsPlainTree (I.sizes inputs.now) (I.codes inputs.now) (tree_of parameter.now) }
    requires small { node_count (tree_of parameter.now) ≤ 8192 }
    requires room { HasRoomFor pending.old (node_count (tree_of parameter.now)) }
    requires bounded { IsBounded tally.old }
    requires few { tally.old.count < 2 ^ 59 }
    ensures ok { OnOk result (AddsItems function tally.old tally.new (items_of_parameter
        (seen_parameter (I.sizes inputs.now) (I.codes inputs.now) (tree_of parameter.now)))) }
    ensures few { OnOk result (tally.new.count ≤ tally.old.count + 17179869184) }
    ensures err { IfErr result (λ kind. contributions function (items_of_parameter
        (seen_parameter (I.sizes inputs.now) (I.codes inputs.now) (tree_of parameter.now)))
        ≡ Err kind) }
    ensures items { pending.new.items ≡ pending.old.items }
    ensures capacity { vec_capacity pending.new ≡ vec_capacity pending.old }
{
    match as_reference(parameter) {
        Some(r) => add_cells(inputs, function, &View::All, r.range(), tally),
        None => {
            let value = value(inputs, parameter, pending);
            add(function, Item::Alone(value), tally)
        }
    }
}
