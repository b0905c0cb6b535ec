ghost use Rattle.std.specs.Prelude.{◌≡◌, ◌++◌, ◌+◌, ◌<◌, ◌∷◌, []};
ghost use Rattle.std.specs.Prelude.{List, IfOk, OnOk};
ghost use Rattle.sheet_refs.specs.Cells.{Corners};
ghost use Rattle.formula_syntax.specs.Tree.{tree_of, trees_of, references_of, all_references};
ghost use Rattle.formula_syntax.specs.Listing.{IsOnceEach, head_place as place_of_head, ranges_of};
ghost use Rattle.formula_syntax.specs.Listing.{AreLeft, Lists, visit_count, all_visits};

use crate::tree::{Formula, Node};
use sheet_refs::{Memory, Range, Refs};
use std::alloc::{AllocError, Global};
use std::marker::Model;
use std::slice;

// Where the first cell of a range stands, row by row.
fn head_place(range: Range) -> u64
    ensures { result ≡ place_of_head range }
{
    u64::from(range.head().row()) * 65_536 + u64::from(range.head().col())
}

/// The ranges that were listed so far, each once.
#[derive(Drop)]
struct Listed {
    ranges: Vec<Range>,
    /// None of them begins behind this place. A formula mostly names its cells in their order, and then no range has to
    /// be compared with all those before it.
    furthest: u64,
}

impl Model for Listed {
    ghost use Rattle.std.specs.Prelude.{List, All, ◌≤◌};
    ghost use Rattle.sheet_refs.specs.Cells.{Corners};
    ghost use Rattle.formula_syntax.specs.Listing.{head_place as place_of_head};

    ghost Value = { List Corners };

    ghost view = { λ l. l.ranges.items };

    ghost invariant = { λ l. All (λ range. place_of_head range ≤ l.furthest) l.ranges.items };
}

impl Listed {
    fn new(alloc: Global) -> Listed
        ensures { result ≡ [] }
    {
        Listed {
            ranges: Vec::new(alloc),
            furthest: 0,
        }
    }

    // Puts a range behind the others where it isn't among them yet.
    fn add(&mut self, range: Range) -> Result<(), AllocError>
        ensures { OnOk result ((all : List Corners)
            → IsOnceEach all self.old → IsOnceEach (all ++ range ∷ []) self.new) }
    {
        let place = head_place(range);
        if place <= self.furthest && self.ranges.contains(&range) {
            return Ok(());
        }
        self.ranges.push(range)?;
        self.furthest = self.furthest.max(place);
        Ok(())
    }
}

/// A node as a list of one.
pub(crate) fn alone(node: &Node) -> &[Node]
    ensures { result.now ≡ node.now ∷ [] }
{
    slice::from_ref(node)
}

// Leaves nodes for later, where there are any.
fn leave<'a>(nodes: &'a [Node], left: &mut Vec<&'a [Node]>) -> Result<(), AllocError>
    ensures { OnOk result (AreLeft nodes.now left.old.items left.new.items) }
{
    if nodes.is_empty() {
        return Ok(());
    }
    left.push(nodes)?;
    Ok(())
}

// Goes on with the left operand of an operator, and leaves the right one. A left operand that is a reference is listed
// at once, so that most formulas need no list of what is left.
fn visit_operands<'a>(
    first: &'a Node,
    second: &'a Node,
    left: &mut Vec<&'a [Node]>,
    listed: &mut Listed,
) -> Result<&'a [Node], AllocError>
    ensures { IfOk result (λ next. Lists
        (references_of (tree_of first.now) ++ references_of (tree_of second.now))
        (7 + visit_count (tree_of first.now) + visit_count (tree_of second.now))
        left.old.items (left.new.items ++ next ∷ []) listed.old listed.new) }
{
    if let Node::Reference(reference) = first {
        listed.add(reference.range())?;
        return Ok(alone(second));
    }
    left.push(alone(second))?;
    Ok(alone(first))
}

// Lists the range of a reference, or goes on with the nodes below another node, and leaves those beside it. What it
// answers comes next.
fn visit<'a>(
    node: &'a Node,
    beside: &'a [Node],
    left: &mut Vec<&'a [Node]>,
    listed: &mut Listed,
) -> Result<&'a [Node], AllocError>
    ensures { IfOk result (λ next. Lists
        (references_of (tree_of node.now) ++ all_references (trees_of beside.now))
        (3 + visit_count (tree_of node.now) + all_visits (trees_of beside.now))
        left.old.items (left.new.items ++ next ∷ []) listed.old listed.new) }
{
    match node {
        Node::Number(_) => Ok(beside),
        Node::Truth(_) => Ok(beside),
        Node::Error(_) => Ok(beside),
        Node::Reference(reference) => {
            listed.add(reference.range())?;
            Ok(beside)
        }
        Node::Prefix(_, operand) => {
            leave(beside, left)?;
            Ok(alone(operand))
        }
        Node::Binary(_, first, second) => {
            leave(beside, left)?;
            visit_operands(first, second, left, listed)
        }
        Node::Call(_, parameters) => {
            leave(beside, left)?;
            Ok(parameters.items())
        }
    }
}

// The ranges that a tree names.
fn list_ranges(alloc: Global, root: &Node) -> Result<Vec<Range>, AllocError>
    ensures { IfOk result (λ ranges. IsOnceEach (ranges_of (tree_of root.now)) ranges.items) }
{
    let mut listed = Listed::new(alloc);
    let mut left = Vec::new(alloc);
    let mut nodes = alone(root);
    loop {
        if let Some((first, beside)) = nodes.split_first() {
            nodes = visit(first, beside, &mut left, &mut listed)?;
            continue;
        }
        let Some(next) = left.pop() else {
            return Ok(listed.ranges);
        };
        nodes = next;
    }
}

/// The ranges that a formula refers to: each once, in the order in which it first stands.
///
/// It goes by a list of what is left to look at, and needs no deep stack. Each node is looked at once. A reference that
/// begins behind all before it isn't compared with them, and another with at most 254. So the time is in proportion to
/// the nodes, with at most 32,385 comparisons of two ranges beside them; the memory is in proportion to the nodes.
pub fn refs(alloc: Global, formula: &Formula) -> Result<Refs, Memory>
    ensures { IfOk result (IsOnceEach (ranges_of formula.now)) }
{
    let ranges = list_ranges(alloc, formula.root())?;
    Ok(Refs::from_vec(ranges))
}
