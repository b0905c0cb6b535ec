ghost use Rattle.std.specs.Prelude.{◌≡◌, ◌+◌, ◌*◌, ◌∷◌, [], ◌++◌, map, take, drop, IfOk, OnOk};
ghost use Rattle.formula_syntax.specs.Rebuilding.{Leads, stacked, over_one, over_two, over_all};
ghost use Rattle.formula_syntax.specs.Rebuilding.{join, after_step, step_weight};
ghost use Rattle.formula_syntax.specs.Shifting.{shifted_part as part_of, shifted_end as end_of};
ghost use Rattle.formula_syntax.specs.Shifting.{shifted_reference as reference_of, shifted};
ghost use Rattle.formula_syntax.specs.Shifting.{or_lost, call_or_lost};
ghost use Rattle.formula_syntax.specs.Tree.{tree_of, trees_of, trees_from, prefix, binary};
ghost use Rattle.formula_syntax.specs.Tree.{node_count, all_nodes};

use crate::functions::Function;
use crate::listing::alone;
use crate::parser::{binary_of, call_of, error_of, prefix_of, references_at};
use crate::tree::{Formula, Node};
use sheet_refs::{Cell, End, MAX_COLS, MAX_ROWS, Memory, Ref};
use std::alloc::{AllocError, Global};
use value_core::{BinaryOp, ErrorKind, PrefixOp};

// A row or a column moved by a whole number; None where it leaves the names. A fixed one stays.
fn shifted_part(fixed: bool, last: u32, by: i32, part: u32) -> Option<u32>
    ensures { result ≡ part_of fixed last by part }
{
    if fixed {
        return Some(part);
    }
    let moved = i64::from(part) + i64::from(by);
    if 1 <= moved && moved <= i64::from(last) {
        Some(moved as u32)
    } else {
        None
    }
}

fn shifted_end(end: End, down: i32, right: i32) -> Option<End>
    ensures { result ≡ end_of down right end }
{
    let row = shifted_part(end.row_fixed, MAX_ROWS, down, end.cell.row())?;
    let col = shifted_part(end.col_fixed, MAX_COLS, right, end.cell.col())?;
    let cell = Cell::new(row, col)?;
    Some(End {
        cell,
        col_fixed: end.col_fixed,
        row_fixed: end.row_fixed,
    })
}

/// A reference moved so many rows down and columns to the right: each part that isn't fixed moves, and two ends
/// are then put in order again, each part with its `$`. None exactly where a part leaves the names A1 to
/// XFD1048576. It takes no memory.
pub fn shift_reference(reference: &Ref, down: i32, right: i32) -> Option<Ref>
    ensures { result ≡ reference_of down right reference.now }
{
    let head = shifted_end(reference.head(), down, right)?;
    if reference.single() {
        return Some(Ref::one(head));
    }
    let tail = shifted_end(reference.tail(), down, right)?;
    Some(Ref::two(head, tail))
}

/// How far a formula is shifted.
#[derive(Clone, Copy)]
pub(crate) struct Distance {
    pub(crate) down: i32,
    pub(crate) right: i32,
}

/// What is left to do.
#[derive(Clone, Copy)]
pub(crate) enum Step<'a> {
    /// To shift some nodes, the last of them first.
    Shift(&'a [Node]),
    /// To put a node together from the shifted nodes that were done last.
    Join(&'a Node),
}

// What becomes of a reference.
fn reference_or_lost(reference: &Ref, by: &Distance) -> Node
    ensures { tree_of result ≡ or_lost (reference_of by.now.down by.now.right reference.now) }
{
    match shift_reference(reference, by.down, by.right) {
        Some(shifted) => Node::Reference(shifted),
        None => Node::Error(ErrorKind::Ref),
    }
}

// Shifts a node without parts, or leaves the parts of another one.
fn visit<'a>(
    node: &'a Node,
    by: &Distance,
    left: &mut Vec<Step<'a>>,
    done: &mut Vec<Node>,
) -> Result<(), AllocError>
    ensures { IfOk result (λ _. Leads by.now.down by.now.right
        left.old.items (shifted by.now.down by.now.right (tree_of node.now) ∷ stacked done.old.items [])
        left.new.items (stacked done.new.items [])
        (4 * node_count (tree_of node.now))) }
{
    match node {
        Node::Number(number) => {
            done.push(Node::Number(*number))?;
            Ok(())
        }
        Node::Truth(truth) => {
            done.push(Node::Truth(*truth))?;
            Ok(())
        }
        Node::Error(kind) => {
            done.push(Node::Error(*kind))?;
            Ok(())
        }
        Node::Reference(reference) => {
            done.push(reference_or_lost(reference, by))?;
            Ok(())
        }
        Node::Prefix(_, operand) => {
            left.push(Step::Join(node))?;
            left.push(Step::Shift(alone(operand)))?;
            Ok(())
        }
        Node::Binary(_, first, second) => {
            left.push(Step::Join(node))?;
            left.push(Step::Shift(alone(first)))?;
            left.push(Step::Shift(alone(second)))?;
            Ok(())
        }
        Node::Call(_, parameters) => {
            left.push(Step::Join(node))?;
            left.push(Step::Shift(parameters.items()))?;
            Ok(())
        }
    }
}

// Takes the last of some nodes, and leaves the others.
fn shift_last<'a>(
    nodes: &'a [Node],
    by: &Distance,
    left: &mut Vec<Step<'a>>,
    done: &mut Vec<Node>,
) -> Result<(), AllocError>
    ensures { IfOk result (λ _. Leads by.now.down by.now.right
        left.old.items (map (shifted by.now.down by.now.right) (map tree_of nodes.now) ++ stacked done.old.items [])
        left.new.items (stacked done.new.items [])
        (1 + 4 * all_nodes (trees_of nodes.now))) }
{
    let Some((last, others)) = nodes.split_last() else {
        return Ok(());
    };
    left.push(Step::Shift(others))?;
    visit(last, by, left, done)?;
    Ok(())
}

// Puts a sign before the node done last.
fn join_one(alloc: Global, op: PrefixOp, done: &mut Vec<Node>) -> Result<(), AllocError>
    ensures { IfOk result (λ _. stacked done.new.items []
        ≡ over_one (prefix op) (stacked done.old.items [])) }
{
    let Some(operand) = done.pop() else {
        return Ok(());
    };
    done.push(prefix_of(alloc, op, operand)?)?;
    Ok(())
}

// Puts an operator between the two nodes done last, of which the last is the left one.
fn join_two(alloc: Global, op: BinaryOp, done: &mut Vec<Node>) -> Result<(), AllocError>
    ensures { IfOk result (λ _. stacked done.new.items []
        ≡ over_two (binary op) (stacked done.old.items [])) }
{
    let Some(first) = done.pop() else {
        return Ok(());
    };
    let Some(second) = done.pop() else {
        return Ok(());
    };
    done.push(binary_of(alloc, op, first, second)?)?;
    Ok(())
}

// Takes so many of the nodes done last, the last first.
fn take_last(alloc: Global, count: usize, done: &mut Vec<Node>) -> Result<Vec<Node>, AllocError>
    ensures taken { IfOk result (λ nodes.
        map tree_of nodes.items ≡ take count (stacked done.old.items [])) }
    ensures left { OnOk result (stacked done.new.items []
        ≡ drop count (stacked done.old.items [])) }
{
    let mut nodes = Vec::new(alloc);
    for _ in 0..count {
        if let Some(node) = done.pop() {
            nodes.push(node)?;
        }
    }
    Ok(nodes)
}

// A call of a function, or the error where a parameter that has to be a reference is none.
fn call_or_error(alloc: Global, function: Function, nodes: Vec<Node>) -> Result<Node, AllocError>
    ensures { IfOk result
        (λ node. tree_of node ≡ call_or_lost function (trees_from (map tree_of nodes.items))) }
{
    if references_at(function.references(), &nodes) {
        let call = call_of(alloc, function, nodes)?;
        Ok(call)
    } else {
        Ok(error_of(ErrorKind::Ref))
    }
}

// Makes a call of so many of the nodes done last.
fn join_all(
    alloc: Global,
    function: Function,
    count: usize,
    done: &mut Vec<Node>,
) -> Result<(), AllocError>
    ensures { IfOk result (λ _. stacked done.new.items []
        ≡ over_all (λ trees. call_or_lost function (trees_from trees)) count
        (stacked done.old.items [])) }
{
    let nodes = take_last(alloc, count, done)?;
    let call = call_or_error(alloc, function, nodes)?;
    done.push(call)?;
    Ok(())
}

// Puts a node together.
fn join_node(alloc: Global, node: &Node, done: &mut Vec<Node>) -> Result<(), AllocError>
    ensures { IfOk result (λ _. stacked done.new.items []
        ≡ join (tree_of node.now) (stacked done.old.items [])) }
{
    match node {
        Node::Prefix(op, _) => join_one(alloc, *op, done),
        Node::Binary(op, _, _) => join_two(alloc, *op, done),
        Node::Call(function, parameters) => {
            join_all(alloc, *function, parameters.items().len(), done)?;
            Ok(())
        }
        Node::Number(_) => Ok(()),
        Node::Truth(_) => Ok(()),
        Node::Error(_) => Ok(()),
        Node::Reference(_) => Ok(()),
    }
}

fn take_step<'a>(
    alloc: Global,
    step: Step<'a>,
    by: &Distance,
    left: &mut Vec<Step<'a>>,
    done: &mut Vec<Node>,
) -> Result<(), AllocError>
    ensures { IfOk result (λ _. Leads by.now.down by.now.right
        left.old.items (after_step by.now.down by.now.right step.entry (stacked done.old.items []))
        left.new.items (stacked done.new.items [])
        (step_weight step.entry)) }
{
    match step {
        Step::Shift(nodes) => shift_last(nodes, by, left, done)?,
        Step::Join(node) => join_node(alloc, node, done)?,
    }
    Ok(())
}

// The shifted tree.
fn shift_tree(alloc: Global, root: &Node, by: &Distance) -> Result<Node, AllocError>
    ensures { IfOk result (λ node. tree_of node ≡ shifted by.now.down by.now.right (tree_of root.now)) }
{
    let mut left = Vec::new(alloc);
    let mut done = Vec::new(alloc);
    left.push(Step::Shift(alone(root)))?;
    while let Some(step) = left.pop() {
        take_step(alloc, step, by, &mut left, &mut done)?;
    }
    Ok(done.pop().unwrap())
}

/// A formula as it reads where it is copied so many rows down and columns to the right: each part of a reference
/// that isn't fixed moves, and all else stays. A reference that leaves the names A1 to XFD1048576 becomes the error
/// `#REF!`, and so does a call in which it stood where a reference has to stand.
///
/// It goes by a list of what is left to do and needs no deep stack. It takes at most four steps for each node, so that
/// time and memory are in proportion to the nodes.
pub fn shift(alloc: Global, formula: &Formula, down: i32, right: i32) -> Result<Formula, Memory>
    ensures { IfOk result (λ copy. copy ≡ shifted down right formula.now) }
{
    let root = shift_tree(alloc, formula.root(), &Distance { down, right })?;
    Ok(Formula { root })
}
