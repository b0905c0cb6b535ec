#![tactic(auto)]

ghost use Rattle.mark_words.specs.Laws.{StepsStandLast, StepsAreEvents, StepsHaveTheirWords};
ghost use Rattle.mark_words.specs.Laws.{SeesShowTheCount, MomentsAreHonest, EventsHaveLed};
ghost use Rattle.mark_words.specs.Laws.{WordsAreThoseOfTheState, ViewsAreThoseOfTheSeats};
ghost use Rattle.mark_words.specs.Tokens.{topic_of};

use crate::marks::Marks;
use mark_core::Subject;

/// Between any two steps the rule of the table holds (the kit keeps it), and where it holds the table is that of an
/// honest state of the core: events have led to that state from the opening one, its places are those that the words
/// show, and its views are those of the seats.
pub fn is_honest_between_steps<S: Subject>(_marks: &Marks<S>)
    ensures honest { MomentsAreHonest S.places S.worth S.touches (topic_of _marks.now) }
    ensures events { EventsHaveLed S.places S.worth S.touches (topic_of _marks.now) }
    ensures words { WordsAreThoseOfTheState S.places S.worth S.touches (topic_of _marks.now) }
    ensures views { ViewsAreThoseOfTheSeats S.places S.worth S.touches (topic_of _marks.now) }
{}

/// A single step is one event: where a seat has one step more, and the other seats have what they had, the events that
/// lead to the words then have the single steps of those before, and this one at their end. It happens on the words as
/// they stood, and leaves them as they stand then. The word that the step notes is the one that stood where it loads or
/// claims, and the one that stands there then where it stores; by the calls' clauses it is the word of what they
/// answer. So the count that a seat has seen after a see is the one that stood.
pub fn takes_one_event_a_step<S: Subject>(_marks: &Marks<S>)
    ensures last { StepsStandLast S.places S.worth S.touches (topic_of _marks.now) }
    ensures words { StepsAreEvents S.places S.worth S.touches (topic_of _marks.now) }
    ensures word { StepsHaveTheirWords S.places S.worth S.touches (topic_of _marks.now) }
    ensures sees { SeesShowTheCount S.places S.worth S.touches (topic_of _marks.now) }
{}
