ghost use Rattle.std.specs.Prelude.{◌≡◌, ◌<◌, ◌≤◌, ◌+◌, ◌*◌, ◌∷◌, [], length, map, IfOk};
ghost use Rattle.std.specs.Prelude.{MatchOption};
ghost use Rattle.formula_syntax.specs.Functions.{shape_of};
ghost use Rattle.formula_syntax.specs.Grammar.{level_of, sign_written};
ghost use Rattle.formula_syntax.specs.Reading.{sign_of, after_signs, under_all, AreSigns};
ghost use Rattle.formula_syntax.specs.Reading.{after_truth, is_fitting, read};
ghost use Rattle.formula_syntax.specs.Reading.{is_reference_at as is_at};
ghost use Rattle.formula_syntax.specs.Reading.{references_at as are_at};
ghost use Rattle.formula_syntax.specs.Reading.{is_reference as is_reference_tree};
ghost use Rattle.formula_syntax.specs.Reading.{several, primary_at, grouped_at, parameters_at};
ghost use Rattle.formula_syntax.specs.Reading.{call_at, HasNoneFrom, HasNoSign, HasNoClose};
ghost use Rattle.formula_syntax.specs.Reading.{HasNoSeparator, Answers, AnswersAll, steps};
ghost use Rattle.formula_syntax.specs.Tree.{tree_of, trees_from, prefix, binary};
ghost use Rattle.formula_syntax.specs.Tree as tree;
ghost use Rattle.formula_syntax.specs.declared.tokens.Token.TheVariants as token;

use crate::functions::Function;
use crate::tokens::Token;
use crate::tree::{Node, Nodes};
use sheet_refs::Ref;
use std::alloc::{AllocError, AllocFailed, Global};
use value_core::{BinaryOp, ErrorKind, PrefixOp, Whole};

/// Why tokens were not read.
#[derive(Clone, Copy, Debug, PartialEq, Eq, Drop)]
pub(crate) enum Unread {
    /// They derive no tree.
    NotFormula,
    /// There was no memory for the tree.
    Memory,
}

impl From<AllocError> for Unread {
    ghost use Rattle.formula_syntax.specs.declared.parser.Unread.TheVariants.{Memory};

    ghost from_gives = { λ _ unread. unread ≡ Memory };

    fn from(_: AllocError) -> Self {
        Unread::Memory
    }
}

impl<T: Drop> From<AllocFailed<T>> for Unread {
    ghost use Rattle.formula_syntax.specs.declared.parser.Unread.TheVariants.{Memory};

    ghost from_gives = { λ _ unread. unread ≡ Memory };

    fn from(_: AllocFailed<T>) -> Self {
        Unread::Memory
    }
}

/// The level of an operator, from 0 for a comparison to 3 for `^`.
pub(crate) fn level(op: BinaryOp) -> u8
    ensures level { result ≡ level_of op }
    ensures small { result < 4 }
{
    match op {
        BinaryOp::Equal
        | BinaryOp::Unequal
        | BinaryOp::Less
        | BinaryOp::LessEqual
        | BinaryOp::Greater
        | BinaryOp::GreaterEqual => 0,
        BinaryOp::Add | BinaryOp::Sub => 1,
        BinaryOp::Mul | BinaryOp::Div => 2,
        BinaryOp::Power => 3,
    }
}

// The operator of a level or a tighter one at the front, and what is behind it.
fn operator_from(at: u8, tokens: &[Token]) -> Option<(BinaryOp, &[Token])>
    ensures { MatchOption result
        (HasNoneFrom at tokens.now)
        (λ found. (tokens.now ≡ token.Operator found.0 ∷ found.1.now) × (at ≤ level_of found.0)) }
{
    match tokens.split_first() {
        Some((Token::Operator(op), behind)) if level(*op) >= at => Some((*op, behind)),
        _ => None,
    }
}

fn sign(op: BinaryOp) -> Option<PrefixOp>
    ensures { result ≡ sign_of op }
{
    match op {
        BinaryOp::Add => Some(PrefixOp::Plus),
        BinaryOp::Sub => Some(PrefixOp::Minus),
        _ => None,
    }
}

// What is behind a closing parenthesis at the front.
fn behind_close(tokens: &[Token]) -> Option<&[Token]>
    ensures { MatchOption result
        (HasNoClose tokens.now)
        (λ behind. tokens.now ≡ token.Close ∷ behind.now) }
{
    match tokens.split_first() {
        Some((Token::Close, behind)) => Some(behind),
        _ => None,
    }
}

// What is behind a separator at the front.
fn behind_separator(tokens: &[Token]) -> Option<&[Token]>
    ensures { MatchOption result
        (HasNoSeparator tokens.now)
        (λ behind. tokens.now ≡ token.Separator ∷ behind.now) }
{
    match tokens.split_first() {
        Some((Token::Separator, behind)) => Some(behind),
        _ => None,
    }
}

// Reads what is behind a truth: nothing, or the parentheses of a call.
fn truth(b: bool, tokens: &[Token]) -> Result<(Node, &[Token]), Unread>
    ensures read { Answers (λ n. after_truth b tokens.now) 0 result }
    ensures within { IfOk result (λ found. length found.1.now ≤ length tokens.now) }
{
    let Some((Token::Open, inner)) = tokens.split_first() else {
        return Ok((Node::Truth(b), tokens));
    };
    let Some(behind) = behind_close(inner) else {
        return Err(Unread::NotFormula);
    };
    Ok((Node::Truth(b), behind))
}

fn number_of(number: Whole) -> Node
    ensures { tree_of result ≡ tree.number number }
{
    Node::Number(number)
}

pub(crate) fn error_of(kind: ErrorKind) -> Node
    ensures { tree_of result ≡ tree.error kind }
{
    Node::Error(kind)
}

fn reference_of(reference: Ref) -> Node
    ensures { tree_of result ≡ tree.reference reference }
{
    Node::Reference(reference)
}

pub(crate) fn binary_of(
    alloc: Global,
    op: BinaryOp,
    left: Node,
    right: Node,
) -> Result<Node, AllocError>
    ensures { IfOk result (λ node. tree_of node ≡ binary op (tree_of left) (tree_of right)) }
{
    let left = Box::new(alloc, left)?;
    let right = Box::new(alloc, right)?;
    Ok(Node::Binary(op, left, right))
}

pub(crate) fn prefix_of(alloc: Global, op: PrefixOp, operand: Node) -> Result<Node, AllocError>
    ensures { IfOk result (λ node. tree_of node ≡ prefix op (tree_of operand)) }
{
    let operand = Box::new(alloc, operand)?;
    Ok(Node::Prefix(op, operand))
}

/// A call of a function, whose list of parameters keeps no room to spare.
pub(crate) fn call_of(
    alloc: Global,
    function: Function,
    mut nodes: Vec<Node>,
) -> Result<Node, AllocError>
    ensures { IfOk result
        (λ node. tree_of node ≡ tree.call function (trees_from (map tree_of nodes.items))) }
{
    nodes.shrink_to_fit();
    let nodes = Box::new(alloc, nodes)?;
    Ok(Node::Call(function, Nodes { nodes }))
}

// Whether the parameters are as the function's line of the table says.
fn fits(function: Function, nodes: &[Node]) -> bool
    ensures { result ≡ is_fitting (shape_of function) (map tree_of nodes.now) }
{
    if nodes.len() < function.least() {
        return false;
    }
    if let Some(most) = function.most() {
        if nodes.len() > most {
            return false;
        }
    }
    references_at(function.references(), nodes)
}

/// Whether the parameters at some places, from 0, are references where they are written.
pub(crate) fn references_at(places: &[usize], nodes: &[Node]) -> bool
    ensures { result ≡ are_at places.now (map tree_of nodes.now) }
{
    for place in places {
        if !reference_at(nodes, *place) {
            return false;
        }
    }
    true
}

fn reference_at(nodes: &[Node], place: usize) -> bool
    ensures { result ≡ is_at (map tree_of nodes.now) place }
{
    place >= nodes.len() || is_reference(&nodes[place])
}

fn is_reference(node: &Node) -> bool
    ensures { result ≡ is_reference_tree (tree_of node.now) }
{
    match node {
        Node::Reference(_) => true,
        Node::Number(_) | Node::Truth(_) | Node::Error(_) => false,
        Node::Prefix(_, _) => false,
        Node::Binary(_, _, _) => false,
        Node::Call(_, _) => false,
    }
}

// The sign at the front, and what is behind it.
fn sign_at(tokens: &[Token]) -> Option<(PrefixOp, &[Token])>
    ensures { MatchOption result
        (HasNoSign tokens.now)
        (λ found. tokens.now ≡ token.Operator (sign_written found.0) ∷ found.1.now) }
{
    let (Token::Operator(op), behind) = tokens.split_first()? else {
        return None;
    };
    let sign = sign(*op)?;
    Some((sign, behind))
}

// The signs at the front, and what is behind them.
fn signs(alloc: Global, tokens: &[Token]) -> Result<(Vec<PrefixOp>, &[Token]), AllocError>
    ensures behind { IfOk result (λ found. found.1.now ≡ after_signs tokens.now) }
    ensures signs { IfOk result (λ found. AreSigns tokens.now found.0.items) }
    ensures within { IfOk result (λ found. length found.1.now ≤ length tokens.now) }
{
    let mut signs = Vec::new(alloc);
    let mut rest = tokens;
    while let Some((sign, behind)) = sign_at(rest) {
        signs.push(sign)?;
        rest = behind;
    }
    Ok((signs, rest))
}

// A tree under signs, of which the last is the innermost.
fn under_signs(alloc: Global, mut signs: Vec<PrefixOp>, operand: Node) -> Result<Node, AllocError>
    ensures { IfOk result (λ signed. tree_of signed ≡ under_all signs.items (tree_of operand)) }
{
    let mut node = operand;
    while let Some(sign) = signs.pop() {
        node = prefix_of(alloc, sign, node)?;
    }
    Ok(node)
}

/// Reads an expression whose operators have a level or tighter ones: 0 for all, 4 for signs alone.
///
/// The operand behind an operator is read with the tighter levels alone, so that operators of one level group
/// from the left. The calls nest as deep as parentheses and operators that grow tighter do; signs and chains
/// of operators are read by loops. Each token is looked at a few times at most, so that time and memory are in
/// proportion to the tokens.
#[cycle(parser)]
pub(crate) fn expression(
    alloc: Global,
    at: u8,
    tokens: &[Token],
) -> Result<(Node, &[Token]), Unread>
    requires { at < 5 }
    ensures read { Answers (λ n. read n at tokens.now) (steps at tokens.now) result }
    ensures shorter { IfOk result (λ found. length found.1.now < length tokens.now) }
    ensures looser { IfOk result (λ found. HasNoneFrom at found.1.now) }
{
    if at == 4 {
        return signed_operand(alloc, tokens);
    }
    let (mut left, mut rest) = signed_operand(alloc, tokens)?;
    while let Some((op, behind)) = operator_from(at, rest) {
        let (right, behind) = expression(alloc, level(op) + 1, behind)?;
        left = binary_of(alloc, op, left, right)?;
        rest = behind;
    }
    Ok((left, rest))
}

// Reads signs and the operand behind them.
#[cycle(parser)]
fn signed_operand(alloc: Global, tokens: &[Token]) -> Result<(Node, &[Token]), Unread>
    ensures read { Answers (λ n. read n 4 tokens.now) (steps 4 tokens.now) result }
    ensures shorter { IfOk result (λ found. length found.1.now < length tokens.now) }
    ensures looser { IfOk result (λ found. HasNoneFrom 4 found.1.now) }
{
    let (signs, operand) = signs(alloc, tokens)?;
    let (node, rest) = primary(alloc, operand)?;
    let node = under_signs(alloc, signs, node)?;
    Ok((node, rest))
}

// Reads what has no operator outside parentheses.
#[cycle(parser)]
fn primary(alloc: Global, tokens: &[Token]) -> Result<(Node, &[Token]), Unread>
    ensures read { Answers (λ n. read n 5 tokens.now) (steps 5 tokens.now) result }
    ensures shorter { IfOk result (λ found. length found.1.now < length tokens.now) }
{
    match tokens.split_first() {
        Some((first, rest)) => primary_from(alloc, first, rest),
        None => Err(Unread::NotFormula),
    }
}

// The same by the first token.
#[cycle(parser)]
fn primary_from<'a>(
    alloc: Global,
    first: &Token,
    rest: &'a [Token],
) -> Result<(Node, &'a [Token]), Unread>
    ensures read { Answers
        (λ n. primary_at n (first.now ∷ rest.now)) (8 * length rest.now + 8) result }
    ensures within { IfOk result (λ found. length found.1.now ≤ length rest.now) }
{
    match first {
        Token::Number(number) => Ok((number_of(*number), rest)),
        Token::Truth(b) => truth(*b, rest),
        Token::Error(kind) => Ok((error_of(*kind), rest)),
        Token::Reference(reference) => Ok((reference_of(*reference), rest)),
        Token::Open => group(alloc, rest),
        Token::Function(function) => call(alloc, *function, rest),
        Token::Operator(_) => Err(Unread::NotFormula),
        Token::Close => Err(Unread::NotFormula),
        Token::Separator => Err(Unread::NotFormula),
    }
}

// Reads an expression and the parenthesis that closes it.
#[cycle(parser)]
fn group(alloc: Global, tokens: &[Token]) -> Result<(Node, &[Token]), Unread>
    ensures read { Answers (λ n. grouped_at n tokens.now) (steps 0 tokens.now) result }
    ensures shorter { IfOk result (λ found. length found.1.now < length tokens.now) }
{
    let (node, rest) = expression(alloc, 0, tokens)?;
    let Some(rest) = behind_close(rest) else {
        return Err(Unread::NotFormula);
    };
    Ok((node, rest))
}

// Reads the parameters of a call, with their parentheses.
#[cycle(parser)]
fn call(alloc: Global, function: Function, tokens: &[Token]) -> Result<(Node, &[Token]), Unread>
    ensures read { Answers (λ n. call_at n function tokens.now) (steps 0 tokens.now) result }
    ensures shorter { IfOk result (λ found. length found.1.now < length tokens.now) }
{
    let Some((Token::Open, inner)) = tokens.split_first() else {
        return Err(Unread::NotFormula);
    };
    let (nodes, rest) = parameters(alloc, inner)?;
    if !fits(function, &nodes) {
        return Err(Unread::NotFormula);
    }
    let node = call_of(alloc, function, nodes)?;
    Ok((node, rest))
}

// Reads the parameters behind an open parenthesis, up to the one that closes it.
#[cycle(parser)]
fn parameters(alloc: Global, tokens: &[Token]) -> Result<(Vec<Node>, &[Token]), Unread>
    ensures read { AnswersAll (λ n. parameters_at n tokens.now) (steps 0 tokens.now + 1) result }
    ensures shorter { IfOk result (λ found. length found.1.now < length tokens.now) }
{
    match behind_close(tokens) {
        Some(rest) => Ok((Vec::new(alloc), rest)),
        None => some_parameters(alloc, tokens),
    }
}

// Reads one or more parameters, up to the parenthesis that closes them.
#[cycle(parser)]
fn some_parameters(alloc: Global, tokens: &[Token]) -> Result<(Vec<Node>, &[Token]), Unread>
    ensures read { AnswersAll (λ n. several n [] tokens.now) (steps 0 tokens.now + 1) result }
    ensures shorter { IfOk result (λ found. length found.1.now < length tokens.now) }
{
    let mut nodes = Vec::new(alloc);
    let mut left = tokens;
    loop {
        let (node, behind) = expression(alloc, 0, left)?;
        nodes.push(node)?;
        if let Some(rest) = behind_close(behind) {
            return Ok((nodes, rest));
        }
        let Some(rest) = behind_separator(behind) else {
            return Err(Unread::NotFormula);
        };
        left = rest;
    }
}
