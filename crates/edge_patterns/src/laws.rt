ghost use Rattle.edge_patterns.specs.Laws.{CellsHaveOneRange, RunsHaveRanges, SinglesHaveOnePair};
ghost use Rattle.edge_patterns.specs.Laws.{RangesAreOrdered, RectanglesHaveTheRanges, RunsAreAsked};
ghost use Rattle.edge_patterns.specs.Laws.{ChainsReferToNeighbours, PairsTellTheEdge, UnionsAreOne};
ghost use Rattle.edge_patterns.specs.Laws.{PartsCanBeJoined};

/// What holds of edges: each cell of a run has one range, and no other cell has any; a `Single` has its one
/// pair; no range has its head past its tail, and the rectangle has exactly the cells of the ranges; a query
/// refers to some cell exactly where it shares one with the run; the chains of several cells are the edges
/// whose cells all refer to the one before them, or all to the next; edges with the same pairs are the same
/// in all three parts, so no two patterns fit one set of pairs; two edges have one union, in whatever
/// order; and two edges that have pairs of one edge, and runs that are neighbours, can be joined.
pub fn edge_laws()
    ensures cells_have_one_range { CellsHaveOneRange }
    ensures runs_have_ranges { RunsHaveRanges }
    ensures singles_have_one_pair { SinglesHaveOnePair }
    ensures ranges_are_ordered { RangesAreOrdered }
    ensures rectangles_have_the_ranges { RectanglesHaveTheRanges }
    ensures runs_are_asked { RunsAreAsked }
    ensures chains_refer_to_neighbours { ChainsReferToNeighbours }
    ensures pairs_tell_the_edge { PairsTellTheEdge }
    ensures unions_are_one { UnionsAreOne }
    ensures parts_can_be_joined { PartsCanBeJoined }
{}
