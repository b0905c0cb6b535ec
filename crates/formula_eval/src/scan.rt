ghost use Rattle.std.specs.Prelude.{◌≡◌, ◌<◌, Some, OnOk, IfErr};
ghost use Rattle.formula_syntax.specs.Tree.{tree_of, trees_of};
ghost use Rattle.formula_eval.specs.Inputs.{IsPlainRange};
ghost use Rattle.formula_eval.specs.Stops.{StopsIn};
ghost use Rattle.formula_eval.specs.Seen.{IsPlainTree, AllPlain, StopsTree, StopsTrees};

use crate::inputs::Inputs;
use formula_syntax::Node;
use sheet_refs::{Cell, Range, Sizes};
use value_core::CodeWord;

/// Why evaluation can't read past a cell.
#[derive(Clone, Copy)]
pub(crate) enum Stop {
    /// Its value isn't known.
    Missing(Cell),
    /// Its value is `#CIRC!`.
    Circular(Cell),
}

pub(crate) fn sizes<I: Inputs>(inputs: &I) -> Sizes
    ensures { result ≡ I.sizes inputs.now }
{
    Sizes {
        rows: inputs.rows(),
        cols: inputs.cols(),
    }
}

/// Looks at each cell of the tree's references that lies in the rectangle, once, up to the first that
/// evaluation can't read past. It goes down left operands by a loop. The time is in proportion to the nodes and
/// to these cells.
#[cycle(scan)]
pub(crate) fn scan<I: Inputs>(inputs: &I, root: &Node) -> Result<(), Stop>
    ensures plain { OnOk result
        (IsPlainTree (I.sizes inputs.now) (I.codes inputs.now) (tree_of root.now)) }
    ensures stop { IfErr result
        (StopsTree (I.sizes inputs.now) (I.codes inputs.now) (tree_of root.now)) }
{
    let mut node = root;
    loop {
        match node {
            Node::Number(_) | Node::Truth(_) | Node::Error(_) => return Ok(()),
            Node::Reference(r) => return scan_range(inputs, r.range()),
            Node::Prefix(_, operand) => node = operand,
            Node::Binary(_, left, right) => {
                scan(inputs, right)?;
                node = left;
            }
            Node::Call(_, parameters) => return scan_all(inputs, parameters.items()),
        }
    }
}

// The same of several trees.
#[cycle(scan)]
fn scan_all<I: Inputs>(inputs: &I, roots: &[Node]) -> Result<(), Stop>
    ensures plain { OnOk result
        (AllPlain (I.sizes inputs.now) (I.codes inputs.now) (trees_of roots.now)) }
    ensures stop { IfErr result
        (StopsTrees (I.sizes inputs.now) (I.codes inputs.now) (trees_of roots.now)) }
{
    for root in roots {
        scan(inputs, root)?;
    }
    Ok(())
}

fn scan_range<I: Inputs>(inputs: &I, range: Range) -> Result<(), Stop>
    ensures plain { OnOk result (IsPlainRange (I.sizes inputs.now) (I.codes inputs.now) range) }
    ensures stop { IfErr result (StopsIn (I.sizes inputs.now) (I.codes inputs.now) range) }
{
    let Some(part) = sizes(inputs).clip(range) else {
        return Ok(());
    };
    let mut cell = part.head();
    for _place in 0..part.cells() {
        let Some(word) = inputs.get(cell) else {
            return Err(Stop::Missing(cell));
        };
        if CodeWord::new(word).is_circular() {
            return Err(Stop::Circular(cell));
        }
        cell = part.cell_behind(cell);
    }
    Ok(())
}
