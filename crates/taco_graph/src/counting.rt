// How many pairs edges have.
ghost use Rattle.std.specs.Prelude.{◌≡◌, length};
ghost use Rattle.taco_graph.specs.Pairs.{HaveFewPairs, pairs_of};

use edge_patterns::Edge;

/// How many pairs some edges have, of which there may be no more than 255 for each cell that has a name, as those of
/// `Taco::edges` are. A pair that is in two of them counts twice. It takes time in proportion to the edges.
pub fn pair_count(edges: &[Edge]) -> u64
    requires { HaveFewPairs edges.now }
    ensures { result ≡ length (pairs_of edges.now) }
{
    let mut count = 0;
    for edge in edges {
        count += edge.dep().cells();
    }
    count
}
