// The lines of ranges and of edges.
ghost use Rattle.std.specs.Prelude.{◌≡◌, ◌++◌, ◌∷◌, [], is_ok};
ghost use Rattle.text_pieces.specs.Pieces.{HandsOut};
ghost use Rattle.window_text.specs.Texts.{check_text, count_line, edge_line, pattern_text, runs_text};

use crate::pieces::{Stopped, send_bytes, send_decimal, send_range_name};
use edge_patterns::{Edge, Pattern};
use sheet_refs::Range;

/// Hands out the lines of ranges, in order.
pub(crate) fn send_runs<F: FnMut(&[u8]) -> bool>(runs: &[Range], to: &mut F) -> Result<(), Stopped>
    requires callable { F.IsAlwaysCallable to.old }
    ensures sent { HandsOut F.FnMut to.old (runs_text runs.now) (is_ok result) to.new }
{
    for run in runs {
        send_range_name(*run, to)?;
        send_bytes(b"\n", to)?;
    }
    Ok(())
}

/// Hands out a number of pairs, and the lines of edges, in order.
pub(crate) fn send_check<F: FnMut(&[u8]) -> bool>(
    pairs: u64,
    edges: &[Edge],
    to: &mut F,
) -> Result<(), Stopped>
    requires callable { F.IsAlwaysCallable to.old }
    ensures sent { HandsOut F.FnMut to.old (check_text pairs edges.now) (is_ok result) to.new }
{
    send_count(b"pairs", pairs, to)?;
    send_count(b"edges", edges.len() as u64, to)?;
    for edge in edges {
        send_edge(edge, to)?;
    }
    Ok(())
}

/// Hands out a line of a word and a number.
pub(crate) fn send_count<F: FnMut(&[u8]) -> bool>(
    word: &[u8],
    number: u64,
    to: &mut F,
) -> Result<(), Stopped>
    requires callable { F.IsAlwaysCallable to.old }
    ensures sent { HandsOut F.FnMut to.old (count_line word.now number) (is_ok result) to.new }
    ensures callable { F.IsAlwaysCallable to.new }
{
    send_bytes(word, to)?;
    send_bytes(b" ", to)?;
    send_decimal(number, to)?;
    send_bytes(b"\n", to)
}

// The name of a pattern as it ends the line of an edge, so that it goes out in one piece.
fn pattern_ending(pattern: Pattern) -> &'static [u8]
    ensures { result.now ≡ 32 ∷ pattern_text pattern ++ 10 ∷ [] }
{
    match pattern {
        Pattern::Single => b" Single\n",
        Pattern::Rr => b" RR\n",
        Pattern::Rf => b" RF\n",
        Pattern::Fr => b" FR\n",
        Pattern::Ff => b" FF\n",
        Pattern::Chain => b" Chain\n",
    }
}

// Hands out the line of an edge.
fn send_edge<F: FnMut(&[u8]) -> bool>(edge: &Edge, to: &mut F) -> Result<(), Stopped>
    requires callable { F.IsAlwaysCallable to.old }
    ensures sent { HandsOut F.FnMut to.old (edge_line edge.now) (is_ok result) to.new }
    ensures callable { F.IsAlwaysCallable to.new }
{
    send_range_name(edge.dep(), to)?;
    send_bytes(b" ", to)?;
    send_range_name(edge.prec(), to)?;
    send_bytes(pattern_ending(edge.pattern()), to)
}
