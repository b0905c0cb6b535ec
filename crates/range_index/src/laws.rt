ghost use Rattle.range_index.specs.Laws.{EntriesAreTheLast, IdsHaveOneRange};
ghost use Rattle.range_index.specs.Laws.{FoundAreFew, KeptIdsStand, LawfulCallsHaveEntries};

/// What holds of indexes: every list of inserts, removals and changes, each of which may be made after those before
/// it, leads from the index without entries to some entries; after every list an entry is there exactly where the last
/// call of its id gave it that range; where no id stands twice, each has one range; a query adds no more ids than there
/// are entries; and where a list has kept what it held, each id stands in its place.
pub fn index_laws()
    ensures lawful { LawfulCallsHaveEntries }
    ensures last { EntriesAreTheLast }
    ensures one_range { IdsHaveOneRange }
    ensures few { FoundAreFew }
    ensures kept { KeptIdsStand }
{}
