ghost use Rattle.graph_walk.specs.Calls.{LastCallsAreLeft, OtherCellsAreKept, CellsAreReplacedOrLeft};
ghost use Rattle.graph_walk.specs.Laws.{ReachHasTheRange, ReachIsClosed, ReachIsLeast};
ghost use Rattle.graph_walk.specs.Laws.{BackHasTheRange, BackIsClosed, BackIsLeast};
ghost use Rattle.graph_walk.specs.Laws.{KeptRangesStand};
ghost use Rattle.graph_walk.specs.Laws.{AddedAreDirectDependents, AddedAreDirectPrecedents};
ghost use Rattle.graph_walk.specs.Starts.{AllReachWhatEachReaches};

/// What is true of the cells that a range reaches: they have the range, they are closed under a step, and
/// they lie in every set that has the range and is closed under a step.
pub fn reach_laws()
    ensures starts { ReachHasTheRange }
    ensures steps { ReachIsClosed }
    ensures least { ReachIsLeast }
{}

/// What is true of the cells that several ranges reach together: they are those that one of them reaches.
pub fn start_laws()
    ensures { AllReachWhatEachReaches }
{}

/// The same of the cells from which a range is reached.
pub fn back_laws()
    ensures starts { BackHasTheRange }
    ensures steps { BackIsClosed }
    ensures least { BackIsLeast }
{}

/// What is true of the lists to which queries add. Where a list has kept what it held, each range stands in its place.
/// What a direct query adds is among the cells exactly where these depend directly on the range, by a pair of their
/// own, or where it depends directly on them.
pub fn list_laws()
    ensures kept { KeptRangesStand }
    ensures dependents { AddedAreDirectDependents }
    ensures precedents { AddedAreDirectPrecedents }
{}

/// What is true of every graph after any list of calls of `replace`, with calls of `reserve` between them: a cell has
/// exactly the ranges that the last call for it gave, and where no call was for it, those that it had first.
pub fn change_laws()
    ensures last { LastCallsAreLeft }
    ensures others { OtherCellsAreKept }
    ensures either { CellsAreReplacedOrLeft }
{}
