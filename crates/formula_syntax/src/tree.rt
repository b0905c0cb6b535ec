ghost use Rattle.std.specs.Prelude.{◌≡◌};
ghost use Rattle.formula_syntax.specs.Tree.{tree_of, trees_of, parameters_of};

use crate::functions::Function;
use sheet_refs::Ref;
use std::marker::Model;
use value_core::{BinaryOp, ErrorKind, PrefixOp, Whole};

/// A formula's tree, or a part of it.
#[cycle(tree)]
pub enum Node {
    /// A number, which is never negative in a formula that was read.
    Number(Whole),
    /// TRUE or FALSE.
    Truth(bool),
    /// An error, which is never `#CIRC!` in a formula that was read.
    Error(ErrorKind),
    /// The cells of a range, or the value of a cell.
    Reference(Ref),
    /// An operator before its operand.
    Prefix(PrefixOp, Box<Node>),
    /// An operator between its left and its right operand.
    Binary(BinaryOp, Box<Node>, Box<Node>),
    /// A function of its parameters.
    Call(Function, Nodes),
}

/// The parameters of a call, in their order.
#[cycle(tree)]
#[derive(Drop)]
pub struct Nodes {
    /// Behind a pointer, so that a call is no larger than the other nodes.
    pub(crate) nodes: Box<Vec<Node>>,
}

/// Goes down the left operands by a loop, so that long sums and chains of signs need no deep stack. Right
/// operands and parameters nest no deeper than parentheses and levels of operators do. It takes no memory, and each
/// node is let go once: the time is in proportion to the nodes.
impl Drop for Node {
    #[cycle(tree)]
    fn drop(mut self) {
        loop {
            match self {
                Node::Number(_) | Node::Truth(_) | Node::Error(_) | Node::Reference(_) => return,
                Node::Prefix(_, operand) => self = Box::into_inner(operand),
                Node::Binary(_, left, right) => {
                    drop(right);
                    self = Box::into_inner(left);
                }
                Node::Call(_, parameters) => {
                    drop(parameters);
                    return;
                }
            }
        }
    }
}

impl Nodes {
    /// The parameters, in their order.
    pub fn items(&self) -> &[Node]
        ensures { trees_of result.now ≡ parameters_of self.now }
    {
        &self.nodes
    }
}

/// A formula: a tree of at most 8,192 nodes with at most 255 references, in which each call has parameters
/// that fit its function.
///
/// To let it go takes time in proportion to its nodes. It isn't copied: whoever needs it at two places shares it by an
/// `Arc`, whose copy takes the same time for every formula; `shift` by nothing makes another one.
#[derive(Drop)]
pub struct Formula {
    pub(crate) root: Node,
}

impl Model for Formula {
    ghost use Rattle.std.specs.Coded.{codes};
    ghost use Rattle.formula_syntax.specs.Tree.{Tree};
    ghost use Rattle.formula_syntax.specs.TreeCode.{tree_code};

    ghost Value = { Tree };

    ghost coded = { tree_code (Prim.hlevel codes) };

    ghost use Rattle.formula_syntax.specs.Tree.{tree_of};
    ghost use Rattle.formula_syntax.specs.Formula.{IsFormula};

    ghost view = { λ f. tree_of f.root };

    ghost invariant = { λ f. IsFormula (tree_of f.root) };
}

impl Formula {
    ghost use Rattle.formula_syntax.specs.Formula.{IsFormula};

    /// The tree.
    pub fn root(&self) -> &Node
        ensures tree { tree_of result.now ≡ self.now }
        ensures kept { IsFormula self.now }
    {
        &self.root
    }
}
