// Laws of the definitions that the contracts of shelves and sinks cite.
ghost use Rattle.sheet_io.specs.Laws.{FaultIsARise, RoseIsGreater, StillIsNotRisen};
ghost use Rattle.sheet_io.specs.Laws.{CutIsALimit, FirstCutCounts, UncutIsWhole};
ghost use Rattle.sheet_io.specs.Laws.{PrefixIsFirstBytes, PutAppendsTheWhole, TellingGoesOn};
ghost use Rattle.sheet_io.specs.Laws.{FetchGivesTheText, FetchKeepsTheFront, TooLongIsPastTheLimit};

/// What it is for a count of faults to have risen: below its end that it is greater than it was, so one that
/// stands still hasn't risen; and one fault more is a rise.
pub fn fault_laws()
    ensures greater { RoseIsGreater }
    ensures still { StillIsNotRisen }
    ensures fault { FaultIsARise }
{}

/// What a put has appended, where the sink tells: the whole piece at Ok, and else some first bytes of it.
pub fn put_laws()
    ensures prefix { PrefixIsFirstBytes }
    ensures telling { TellingGoesOn }
    ensures whole { PutAppendsTheWhole }
{}

/// Which puts a list of cuts cuts, and how many bytes these take at most.
pub fn cut_laws()
    ensures uncut { UncutIsWhole }
    ensures first { FirstCutCounts }
    ensures limit { CutIsALimit }
{}

/// What a fetch has appended: something behind what was held; where the shelf tells the text, all of it at
/// Ok, and it is within the limit; at TooLong the text is past the limit.
pub fn fetch_laws()
    ensures front { FetchKeepsTheFront }
    ensures whole { FetchGivesTheText }
    ensures long { TooLongIsPastTheLimit }
{}
