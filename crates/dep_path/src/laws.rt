ghost use Rattle.dep_path.specs.Laws.{ChainsAreTheirEnds, ShortestAreChains, ShortestAreOfOneLength, EqualCellsAreOne};

/// What holds of chains: one begins with its first cell and leads by steps to its last; a shortest one is a chain, and
/// no list that is a chain with these ends has fewer cells; from a cell to itself it is the one cell.
pub fn chain_laws()
    ensures ends { ChainsAreTheirEnds }
    ensures shortest { ShortestAreChains }
    ensures length { ShortestAreOfOneLength }
    ensures equal { EqualCellsAreOne }
{}
