ghost use Rattle.std.specs.Prelude.{◌≡◌, ◌≤◌, ◌++◌, length, take, drop, reverse, OnOk};
ghost use Rattle.formula_syntax.specs.Tree.{tree_of, trees_of, references_of, all_references};
ghost use Rattle.sheet_model.specs.Parts.{AddsParts, AddsRange};

use formula_syntax::Node;
use sheet_refs::{Range, Sizes};
use std::alloc::AllocError;

/// What is left to look at of a range that a formula names: its part within the rectangle, and the
/// place of the next of its cells, counted from 0.
#[derive(Clone, Copy)]
pub struct Part {
    pub range: Range,
    pub next: u64,
}

/// Puts the part of a range that lies in the rectangle behind the others, where there is one.
fn add_part(sizes: Sizes, range: Range, parts: &mut Vec<Part>) -> Result<(), AllocError>
    ensures { OnOk result (AddsRange sizes range parts.old.items parts.new.items) }
{
    if let Some(range) = sizes.clip(range) {
        parts.push(Part { range, next: 0 })?;
    }
    Ok(())
}

// Puts the parts of a tree's references behind the others. It goes down left operands by a loop;
// right operands and parameters nest no deeper than parentheses and the levels of operators do.
#[cycle(add_parts)]
fn add_parts(sizes: Sizes, root: &Node, parts: &mut Vec<Part>) -> Result<(), AllocError>
    ensures { OnOk result
        (AddsParts sizes (references_of (tree_of root.now)) parts.old.items parts.new.items) }
{
    let mut node = root;
    loop {
        match node {
            Node::Number(_) | Node::Truth(_) | Node::Error(_) => return Ok(()),
            Node::Reference(r) => return add_part(sizes, r.range(), parts),
            Node::Prefix(_, operand) => node = operand,
            Node::Binary(_, left, right) => {
                add_parts(sizes, right, parts)?;
                node = left;
            }
            Node::Call(_, parameters) => return add_all(sizes, parameters.items(), parts),
        }
    }
}

// The same of several trees.
#[cycle(add_parts)]
fn add_all(sizes: Sizes, roots: &[Node], parts: &mut Vec<Part>) -> Result<(), AllocError>
    ensures { OnOk result
        (AddsParts sizes (all_references (trees_of roots.now)) parts.old.items parts.new.items) }
{
    for root in roots {
        add_parts(sizes, root, parts)?;
    }
    Ok(())
}

// Turns round the order of the parts from a place on.
fn reverse_from(parts: &mut Vec<Part>, first: usize)
    requires { first ≤ length parts.old.items }
    ensures { parts.new.items
        ≡ take first parts.old.items ++ reverse (drop first parts.old.items) }
{
    parts[first..].reverse();
}

/// Puts the parts of a tree's references behind the others, those of a right operand behind those of the left
/// one. The walk looks at the last part first: where a formula names the cell on its right and then the one
/// below, it thus goes along rows, as cells lie in memory.
pub(crate) fn add_in_order(
    sizes: Sizes,
    root: &Node,
    parts: &mut Vec<Part>,
) -> Result<(), AllocError>
    ensures { OnOk result
        (AddsParts sizes (references_of (tree_of root.now)) parts.old.items parts.new.items) }
{
    let first = parts.len();
    add_parts(sizes, root, parts)?;
    reverse_from(parts, first);
    Ok(())
}
