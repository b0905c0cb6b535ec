ghost use Rattle.std.specs.Prelude.{◌≡◌, ◌≤◌, ◌+◌, false, IfOk, MatchOption};
ghost use Rattle.formula_syntax.specs.Grammar.{sign_written};
ghost use Rattle.formula_syntax.specs.Lexing.{operator_text};
ghost use Rattle.formula_syntax.specs.Left.{HasLeft, HasNoLeft, SendsFront, below, level_below};
ghost use Rattle.formula_syntax.specs.Left.{closing, leaf_text, opening, right_text, text_behind};
ghost use Rattle.formula_syntax.specs.Printing.{at_level, bracket_if, call_text, tree_text, others_text};
ghost use Rattle.formula_syntax.specs.Printing.{parameters_text, plain, top_level as level_at_top};
ghost use Rattle.formula_syntax.specs.Spelling.{Spells};
ghost use Rattle.formula_syntax.specs.Tree.{all_nodes, node_count, tree_of, trees_of};
ghost use Rattle.text_pieces.specs.Pieces.{HandsOut};

use crate::functions::Function;
use crate::parser::level;
use crate::tree::{Formula, Node};
use itoa::Buffer;
use sheet_refs::Memory;
use std::alloc::Global;
use text_pieces::{send, send_reference};
use value_core::{BinaryOp, PrefixOp};

// How an operator between two operands is written.
fn symbol(op: BinaryOp) -> &'static str
    ensures { result.now ≡ operator_text op }
{
    match op {
        BinaryOp::Add => "+",
        BinaryOp::Sub => "-",
        BinaryOp::Mul => "*",
        BinaryOp::Div => "/",
        BinaryOp::Power => "^",
        BinaryOp::Equal => "=",
        BinaryOp::Unequal => "<>",
        BinaryOp::Less => "<",
        BinaryOp::LessEqual => "<=",
        BinaryOp::Greater => ">",
        BinaryOp::GreaterEqual => ">=",
    }
}

// How an operator before its operand is written.
fn sign_symbol(op: PrefixOp) -> &'static str
    ensures { result.now ≡ operator_text (sign_written op) }
{
    match op {
        PrefixOp::Plus => "+",
        PrefixOp::Minus => "-",
    }
}

// The level of a tree's own operator; 4 where it isn't two operands of one.
fn top_level(node: &Node) -> u8
    ensures { result ≡ level_at_top (tree_of node.now) }
{
    match node {
        Node::Binary(op, _, _) => level(*op),
        Node::Number(_) | Node::Truth(_) | Node::Error(_) | Node::Reference(_) => 4,
        Node::Prefix(_, _) => 4,
        Node::Call(_, _) => 4,
    }
}

// Hands out a byte where a tree's own operator is looser than a level.
fn send_bracket<F: FnMut(&[u8]) -> bool>(byte: &[u8], node: &Node, level: u8, to: &mut F) -> bool
    requires callable { F.IsAlwaysCallable to.old }
    ensures sent { HandsOut F.FnMut to.old
        (bracket_if level (tree_of node.now) byte.now) result to.new }
    ensures callable { F.IsAlwaysCallable to.new }
{
    if top_level(node) < level {
        return send(byte, to);
    }
    true
}

// Hands out what stands before the left operand of a tree, where this level is wanted.
fn send_opening<F: FnMut(&[u8]) -> bool>(node: &Node, level: u8, to: &mut F) -> bool
    requires callable { F.IsAlwaysCallable to.old }
    ensures sent { HandsOut F.FnMut to.old (opening level (tree_of node.now)) result to.new }
    ensures callable { F.IsAlwaysCallable to.new }
{
    if !send_bracket(b"(", node, level, to) {
        return false;
    }
    match node {
        Node::Prefix(op, _) => send(sign_symbol(*op).as_bytes(), to),
        _ => true,
    }
}

// The operand of a sign, or the left operand of an operator, with the level that is wanted there.
fn left_of(node: &Node) -> Option<(&Node, u8)>
    ensures { MatchOption result (HasNoLeft (tree_of node.now))
        (λ left. HasLeft (tree_of node.now) (tree_of left.0.now) left.1) }
{
    match node {
        Node::Prefix(_, operand) => Some((operand, 4)),
        Node::Binary(op, left, _) => Some((left, level(*op))),
        _ => None,
    }
}

// The tree so many left operands below another, and the level that is wanted there.
fn below(root: &Node, level: u8, depth: usize) -> (&Node, u8)
    ensures tree { tree_of result.0.now ≡ below depth (tree_of root.now) }
    ensures level { result.1 ≡ level_below depth level (tree_of root.now) }
    ensures few { node_count (tree_of result.0.now) ≤ node_count (tree_of root.now) }
{
    let mut node = root;
    let mut at = level;
    for _ in 0..depth {
        if let Some((left, least)) = left_of(node) {
            node = left;
            at = least;
        }
    }
    (node, at)
}

// Hands out what stands of a tree up to its outermost right operands, and answers how many left operands lie below
// each other there; None where more isn't taken.
#[cycle(printing)]
fn send_front<F: FnMut(&[u8]) -> bool>(root: &Node, level: u8, to: &mut F) -> Option<usize>
    requires callable { F.IsAlwaysCallable to.old }
    requires small { node_count (tree_of root.now) ≤ 8192 }
    ensures sent { MatchOption result
        (HandsOut F.FnMut to.old
        (at_level level (tree_of root.now) (tree_text (tree_of root.now))) false to.new)
        (λ depth. SendsFront F.FnMut to.old level (tree_of root.now) depth to.new) }
    ensures callable { F.IsAlwaysCallable to.new }
{
    let mut node = root;
    let mut at = level;
    let mut depth = 0;
    if !send_opening(node, at, to) {
        return None;
    }
    while let Some((left, least)) = left_of(node) {
        node = left;
        at = least;
        depth += 1;
        if !send_opening(node, at, to) {
            return None;
        }
    }
    if !send_leaf(node, to) {
        return None;
    }
    Some(depth)
}

// Hands out what has no left operand.
#[cycle(printing)]
fn send_leaf<F: FnMut(&[u8]) -> bool>(node: &Node, to: &mut F) -> bool
    requires callable { F.IsAlwaysCallable to.old }
    requires small { node_count (tree_of node.now) ≤ 8192 }
    ensures sent { HandsOut F.FnMut to.old (leaf_text (tree_of node.now)) result to.new }
    ensures callable { F.IsAlwaysCallable to.new }
{
    match node {
        Node::Number(number) => send(Buffer::new().format(number.get()).as_bytes(), to),
        Node::Truth(true) => send(b"TRUE", to),
        Node::Truth(false) => send(b"FALSE", to),
        Node::Error(kind) => send(kind.name().as_bytes(), to),
        Node::Reference(reference) => send_reference(reference, to),
        Node::Call(function, parameters) => send_call(*function, parameters.items(), to),
        Node::Prefix(_, _) => true,
        Node::Binary(_, _, _) => true,
    }
}

// Hands out a call of a function.
#[cycle(printing)]
fn send_call<F: FnMut(&[u8]) -> bool>(function: Function, nodes: &[Node], to: &mut F) -> bool
    requires callable { F.IsAlwaysCallable to.old }
    requires small { all_nodes (trees_of nodes.now) ≤ 8192 }
    ensures sent { HandsOut F.FnMut to.old
        (call_text function (parameters_text (trees_of nodes.now))) result to.new }
    ensures callable { F.IsAlwaysCallable to.new }
{
    if !send(function.name().as_bytes(), to) {
        return false;
    }
    if !send(b"(", to) {
        return false;
    }
    if !send_parameters(nodes, to) {
        return false;
    }
    send(b")", to)
}

// Hands out parameters, with a separator between two.
#[cycle(printing)]
fn send_parameters<F: FnMut(&[u8]) -> bool>(nodes: &[Node], to: &mut F) -> bool
    requires callable { F.IsAlwaysCallable to.old }
    requires small { all_nodes (trees_of nodes.now) ≤ 8192 }
    ensures sent { HandsOut F.FnMut to.old (parameters_text (trees_of nodes.now)) result to.new }
    ensures callable { F.IsAlwaysCallable to.new }
{
    let Some((first, rest)) = nodes.split_first() else {
        return true;
    };
    if !send_tree(first, 0, to) {
        return false;
    }
    send_others(rest, to)
}

// Hands out parameters, each behind a separator.
#[cycle(printing)]
fn send_others<F: FnMut(&[u8]) -> bool>(nodes: &[Node], to: &mut F) -> bool
    requires callable { F.IsAlwaysCallable to.old }
    requires small { all_nodes (trees_of nodes.now) ≤ 8192 }
    ensures sent { HandsOut F.FnMut to.old (others_text (trees_of nodes.now)) result to.new }
    ensures callable { F.IsAlwaysCallable to.new }
{
    let mut left = nodes;
    while let Some((first, rest)) = left.split_first() {
        if !send(b";", to) {
            return false;
        }
        if !send_tree(first, 0, to) {
            return false;
        }
        left = rest;
    }
    true
}

// Hands out what stands behind the left operand of a tree, where this level is wanted.
#[cycle(printing)]
fn send_closing<F: FnMut(&[u8]) -> bool>(node: &Node, level: u8, to: &mut F) -> bool
    requires callable { F.IsAlwaysCallable to.old }
    requires small { node_count (tree_of node.now) ≤ 8192 }
    ensures sent { HandsOut F.FnMut to.old (closing level (tree_of node.now)) result to.new }
    ensures callable { F.IsAlwaysCallable to.new }
{
    if !send_right(node, to) {
        return false;
    }
    send_bracket(b")", node, level, to)
}

// Hands out an operator and its right operand, where a tree has them.
#[cycle(printing)]
fn send_right<F: FnMut(&[u8]) -> bool>(node: &Node, to: &mut F) -> bool
    requires callable { F.IsAlwaysCallable to.old }
    requires small { node_count (tree_of node.now) ≤ 8192 }
    ensures sent { HandsOut F.FnMut to.old (right_text (tree_of node.now)) result to.new }
    ensures callable { F.IsAlwaysCallable to.new }
{
    match node {
        Node::Binary(op, _, right) => {
            if !send(symbol(*op).as_bytes(), to) {
                return false;
            }
            send_tree(right, level(*op) + 1, to)
        }
        Node::Number(_) => true,
        Node::Truth(_) => true,
        Node::Error(_) => true,
        Node::Reference(_) => true,
        Node::Prefix(_, _) => true,
        Node::Call(_, _) => true,
    }
}

// Hands out what stands behind so many left operands of a tree, from the innermost on: that of the inner half first,
// counted from the tree at which this half begins. A chain is gone down anew for each of its halves, their halves and
// so on, so that it takes n log n steps, and the calls nest no deeper than log n.
#[cycle(printing)]
fn send_back<F: FnMut(&[u8]) -> bool>(root: &Node, level: u8, depth: usize, to: &mut F) -> bool
    requires callable { F.IsAlwaysCallable to.old }
    requires small { node_count (tree_of root.now) ≤ 8192 }
    requires few { depth ≤ 8192 }
    ensures sent { HandsOut F.FnMut to.old
        (text_behind depth level (tree_of root.now)) result to.new }
    ensures callable { F.IsAlwaysCallable to.new }
{
    if depth == 0 {
        return true;
    }
    if depth == 1 {
        return send_closing(root, level, to);
    }
    let half = depth / 2;
    let (node, at) = below(root, level, half);
    if !send_back(node, at, depth - half, to) {
        return false;
    }
    send_back(root, level, half, to)
}

// Hands out a tree, in parentheses where its own operator is looser than a level.
#[cycle(printing)]
fn send_tree<F: FnMut(&[u8]) -> bool>(root: &Node, level: u8, to: &mut F) -> bool
    requires callable { F.IsAlwaysCallable to.old }
    requires small { node_count (tree_of root.now) ≤ 8192 }
    ensures sent { HandsOut F.FnMut to.old
        (at_level level (tree_of root.now) (tree_text (tree_of root.now))) result to.new }
    ensures callable { F.IsAlwaysCallable to.new }
{
    match send_front(root, level, to) {
        Some(depth) => send_back(root, level, depth + 1, to),
        None => false,
    }
}

/// Hands out the plain text of a formula in pieces: `=` and its tree without white space, names and columns in
/// upper case, parameters joined by `;`, and parentheses exactly where the tree needs them. The text is a formula
/// with the same tree.
///
/// It takes no memory. Left operands and signs are gone through by a loop; the calls nest as deep as right operands
/// and parameters do, and within each chain of left operands by the logarithm of its length. The time is in
/// proportion to the length of the text, and n log n for a formula of n nodes, whatever its tree is.
pub fn send_formula<F: FnMut(&[u8]) -> bool>(formula: &Formula, to: &mut F) -> bool
    requires callable { F.IsAlwaysCallable to.old }
    ensures sent { HandsOut F.FnMut to.old (plain formula.now) result to.new }
    ensures reads_back { Spells (plain formula.now) formula.now }
    ensures callable { F.IsAlwaysCallable to.new }
{
    let root = formula.root();
    if !send(b"=", to) {
        return false;
    }
    send_tree(root, 0, to)
}

/// The plain text of a formula, as `send_formula` hands it out. It takes the same time, and memory in proportion to the
/// text.
pub fn print(alloc: Global, formula: &Formula) -> Result<Vec<u8>, Memory>
    ensures plain { IfOk result (λ text. text.items ≡ plain formula.now) }
    ensures reads_back { IfOk result (λ text. Spells text.items formula.now) }
{
    let mut text = Vec::new(alloc);
    let mut keep = |piece: &[u8]| text.extend_from_slice(piece).is_ok();
    if send_formula(formula, &mut keep) {
        Ok(text)
    } else {
        Err(Memory)
    }
}
