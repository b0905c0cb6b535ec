// What each edge answers to a query.
ghost use Rattle.std.specs.Prelude.{◌≡◌, ◌+◌, ◌-◌, ◌≤◌, ◌↔◌, IsSome, IfSome};
ghost use Rattle.sheet_refs.specs.Cells.{IsNamed};
ghost use Rattle.edge_patterns.specs.Queries.{Covers, IsReferred};
ghost use Rattle.edge_patterns.specs.declared.edge.Pattern.TheVariants.{Chain};
ghost use Rattle.taco_graph.specs.Answers.{IsMeant, IsMovedTo};

use edge_patterns::{Edge, Pattern, back, direct, spread};
use sheet_refs::{Cell, Range};

/// What a query asks for.
#[derive(Clone, Copy)]
pub(crate) enum Question {
    /// The cells that refer to the query.
    Dependents,
    /// The cells to which the query refers.
    Precedents,
    /// The same as `Dependents`, and of a chain all cells that its own pairs lead to.
    Ahead,
    /// The same as `Precedents`, and of a chain all cells that its own pairs lead back to.
    Behind,
}

/// What an edge answers, in constant time.
pub(crate) fn answer(question: Question, edge: &Edge, q: Range) -> Option<Range>
    ensures { Covers result (IsMeant question edge.now q) }
{
    match question {
        Question::Dependents => direct(edge, q),
        Question::Precedents => referred(edge, q),
        Question::Ahead => spread(edge, q),
        Question::Behind => back(edge, q),
    }
}

// The cells to which the run's cells in the query refer, in one step of the edge's pairs.
fn referred(edge: &Edge, q: Range) -> Option<Range>
    ensures { Covers result (IsReferred edge.now q) }
{
    if edge.pattern() != Pattern::Chain {
        return back(edge, q);
    }
    referred_by_chain(edge, q)
}

// The same of a chain: these cells stand to the run's cells in the query as the rectangle stands to the run.
fn referred_by_chain(edge: &Edge, q: Range) -> Option<Range>
    requires { edge.now.pattern ≡ Chain }
    ensures { Covers result (IsReferred edge.now q) }
{
    let Some(asked) = edge.dep().meet(&q) else {
        return None;
    };
    let from = edge.dep().head();
    let to = edge.prec().head();
    let Some(head) = moved(asked.head(), from, to) else {
        return None;
    };
    let Some(tail) = moved(asked.tail(), from, to) else {
        return None;
    };
    Some(Range::of(head, tail))
}

// The cell that stands to a cell as another one stands to a third, which is neither below the first nor right of it.
fn moved(cell: Cell, from: Cell, to: Cell) -> Option<Cell>
    requires rows { from.row ≤ cell.row }
    requires cols { from.col ≤ cell.col }
    ensures named { IsSome result
        ↔ IsNamed (cell.row - from.row + to.row) (cell.col - from.col + to.col) }
    ensures moved { IfSome result (IsMovedTo cell from to) }
{
    let row = cell.row() - from.row() + to.row();
    let col = cell.col() - from.col() + to.col();
    Cell::new(row, col)
}
