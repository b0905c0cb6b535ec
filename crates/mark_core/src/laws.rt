#![tactic(auto)]

ghost use Rattle.mark_core.specs.Laws.{OpeningsAreHonest, EventsKeepHonest, ValuesAreWorths};
ghost use Rattle.mark_core.specs.Laws.{NewerMarksTouch, StaleMarksTouch, CellsAreLegal};
ghost use Rattle.mark_core.specs.Laws.{ReadsAreLegal};
ghost use Rattle.mark_core.specs.Laws.{ReadsBegin, ReadsGoOn, ReadsEnd, SeesAnswerTheCount};
ghost use Rattle.mark_core.specs.Laws.{SplitsHandOn, JoinsHandOn, ViewsGrow};
ghost use Rattle.mark_core.specs.Laws.{HeldWordsHaveHolders, PlacesHaveOneHolder};
ghost use Rattle.mark_core.specs.Laws.{HeldPlacesAreStale, PutWordsAreKnown};
ghost use Rattle.mark_core.specs.Laws.{EventsHappenInOrder, RunsStayHonest, StaleForLaterEdits};
ghost use Rattle.mark_core.specs.Laws.{LastMarksAreUnique};

use crate::subjects::Subject;

/// One event. The state that `Core::open` gives is honest, and where a state is honest, the one that an
/// event leaves is honest too.
pub fn keeps_honest<S: Subject>(_subject: &S)
    ensures opening { OpeningsAreHonest S.places S.worth S.touches _subject.now }
    ensures event { EventsKeepHonest S.places S.worth S.touches _subject.now }
{}

/// What the finished reads of a view show in an honest state: a value is the worth after as many entries
/// as the read's number says, and each mark is that of an entry that touches the place, or 0 where the
/// opening gave no code. Each read met its floor, and is legal where it loaded a word.
pub fn shows_what_is_right<S: Subject>(_subject: &S)
    ensures value { ValuesAreWorths S.places S.worth S.touches _subject.now }
    ensures newer { NewerMarksTouch S.places S.worth S.touches _subject.now }
    ensures stale { StaleMarksTouch S.places S.worth S.touches _subject.now }
    ensures cell { CellsAreLegal S.places S.worth S.touches _subject.now }
    ensures legal { ReadsAreLegal S.places S.worth S.touches _subject.now }
{}

/// How a read goes through its three loads: it begins with a floor above each mark for which the view knows
/// the place, goes on with the value, and ends with the number that the view has seen, which is at least
/// the length of the view's log. What it showed as current the view knows from then on.
pub fn reads_in_three_loads<S: Subject>(_subject: &S)
    ensures begins { ReadsBegin S.places S.worth S.touches _subject.now }
    ensures goes_on { ReadsGoOn S.places S.worth S.touches _subject.now }
    ensures ends { ReadsEnd S.places S.worth S.touches _subject.now }
{}

/// What views hand on: a see answers the count, a split gives what the view knows to a new one, and a join
/// gives it to the one that stays. A view's counts, finishes and refused claims grow by what its own
/// events and joins add and by nothing else, and of its log, known places and reads nothing goes.
pub fn hands_on<S: Subject>(_subject: &S)
    ensures see { SeesAnswerTheCount S.places S.worth S.touches _subject.now }
    ensures split { SplitsHandOn S.places S.worth S.touches _subject.now }
    ensures join { JoinsHandOn S.places S.worth S.touches _subject.now }
    ensures grow { ViewsGrow S.places S.worth S.touches _subject.now }
{}

/// Held places. In an honest state a clean word is held exactly where some view holds the place, no two views do,
/// and the place is stale. A word that the holder put is the place's value and a worth that the holder knows.
pub fn holds_alone<S: Subject>(_subject: &S)
    ensures held { HeldWordsHaveHolders S.places S.worth S.touches _subject.now }
    ensures one { PlacesHaveOneHolder S.places S.worth S.touches _subject.now }
    ensures stale { HeldPlacesAreStale S.places S.worth S.touches _subject.now }
    ensures put { PutWordsAreKnown S.places S.worth S.touches _subject.now }
{}

/// Lists of events: they happen one after the other, and whatever events happen from an opening state, the
/// state is honest.
pub fn stays_honest<S: Subject>(_subject: &S)
    ensures in_order { EventsHappenInOrder S.places S.worth S.touches _subject.now }
    ensures honest { RunsStayHonest S.places S.worth S.touches _subject.now }
{}

/// Of two legal reads of a place by one view, of which the first showed the value as current and the second
/// began with a floor above the first one's mark, the second shows the place as stale or newer only for an
/// edit above the first one's number.
pub fn goes_stale_for_later_edits_only<S: Subject>(_subject: &S)
    ensures { StaleForLaterEdits S.worth S.touches _subject.now }
{}

/// A place has one last mark in a list of entries.
pub fn has_one_last_mark<S: Subject>(_subject: &S)
    ensures { LastMarksAreUnique S.worth S.touches _subject.now }
{}
