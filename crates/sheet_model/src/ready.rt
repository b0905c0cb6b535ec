ghost use Rattle.std.specs.Prelude.{◌≡◌, ◌∷◌, [], length, IsTrue};
ghost use Rattle.sheet_refs.specs.Cells.{Position, IsIn};
ghost use Rattle.sheet_refs.specs.Sizes.{cell_count, is_inside};
ghost use Rattle.formula_syntax.specs.Tree.{tree_of, trees_of, references_of, all_references};
ghost use Rattle.sheet_model.specs.Sheets.{content_value};
ghost use Rattle.sheet_model.specs.Walks.{ArePlainInputs, ArePlainReferences};
ghost use Rattle.sheet_model.specs.Words.{AreWords, is_plain, states_of};

use crate::content::Content;
use crate::words::{is_plain_cell, is_plain_range};
use formula_syntax::Node;
use sheet_refs::{Range, Ref, Sizes};

/// The most cells of a range that are looked at before its formula is opened. This look may be in vain, and isn't gone
/// on with afterwards; so a larger range is left to the look at its part, which goes on where it stopped.
const FEW_CELLS: u64 = 64;

// Whether a range has few cells in the rectangle, and evaluation can read past each of them.
fn passes_range(sizes: Sizes, words: &[u64], range: Range) -> bool
    requires count { length words.now ≡ cell_count sizes }
    requires words { AreWords words.now }
    ensures { IsTrue result → (cell : Position) → IsIn cell range → IsTrue (is_inside sizes cell)
        → IsTrue (is_plain sizes (states_of words.now) cell) }
{
    let Some(part) = sizes.clip(range) else {
        return true;
    };
    if part.cells() > FEW_CELLS {
        return false;
    }
    is_plain_range(sizes, words, part)
}

// The same of a reference. One that is written as one end, as most are, names one cell.
fn passes_reference(sizes: Sizes, words: &[u64], reference: &Ref) -> bool
    requires count { length words.now ≡ cell_count sizes }
    requires words { AreWords words.now }
    ensures { IsTrue result
        → ArePlainReferences sizes (states_of words.now) (reference.now ∷ []) }
{
    if !reference.single() {
        return passes_range(sizes, words, reference.range());
    }
    let cell = reference.head().cell;
    if !sizes.holds(cell) {
        return true;
    }
    is_plain_cell(sizes, words, cell)
}

// Whether a tree names cells and ranges of few cells, and evaluation can read past them. It goes down left operands by
// a loop; right operands and parameters nest no deeper than parentheses and the levels of operators do.
#[cycle(passes_tree)]
fn passes_tree(sizes: Sizes, words: &[u64], root: &Node) -> bool
    requires count { length words.now ≡ cell_count sizes }
    requires words { AreWords words.now }
    ensures { IsTrue result
        → ArePlainReferences sizes (states_of words.now) (references_of (tree_of root.now)) }
{
    let mut node = root;
    loop {
        match node {
            Node::Number(_) | Node::Truth(_) | Node::Error(_) => return true,
            Node::Reference(r) => return passes_reference(sizes, words, r),
            Node::Prefix(_, operand) => node = operand,
            Node::Binary(_, left, right) => {
                if !passes_tree(sizes, words, right) {
                    return false;
                }
                node = left;
            }
            Node::Call(_, parameters) => return passes_all(sizes, words, parameters.items()),
        }
    }
}

// The same of several trees.
#[cycle(passes_tree)]
fn passes_all(sizes: Sizes, words: &[u64], roots: &[Node]) -> bool
    requires count { length words.now ≡ cell_count sizes }
    requires words { AreWords words.now }
    ensures { IsTrue result
        → ArePlainReferences sizes (states_of words.now) (all_references (trees_of roots.now)) }
{
    for root in roots {
        if !passes_tree(sizes, words, root) {
            return false;
        }
    }
    true
}

/// Whether a content names cells and ranges of few cells, and evaluation can read past all of them that lie in the
/// rectangle. It looks at each cell at most twice each time that it is so named, and at none of a larger range.
pub(crate) fn is_ready(sizes: Sizes, words: &[u64], content: &Content) -> bool
    requires count { length words.now ≡ cell_count sizes }
    requires words { AreWords words.now }
    ensures { IsTrue result
        → ArePlainInputs sizes (states_of words.now) (content_value content.now) }
{
    match content {
        Content::Formula(formula) => passes_tree(sizes, words, formula.root()),
        _ => true,
    }
}
