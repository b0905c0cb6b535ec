ghost use Rattle.std.specs.Prelude.{◌≡◌, ◌<◌, length, true, IfSome};
ghost use Rattle.mark_core.specs.Knows.{KnowsClean};
ghost use Rattle.mark_core.specs.Marks.{IsLastMark};
ghost use Rattle.mark_core.specs.Permissions.{MayClaim};
ghost use Rattle.mark_words.specs.Tokens.{IsSeatOf, subject_of, places_of, doing_of, view_of, log_of};
ghost use Rattle.mark_trial.specs.Threads.{HasReadPlace};

use mark_core::{Clean, Subject};
use mark_words::{Marks, Seat};

/// What the three loads of a read found.
#[derive(Clone, Copy)]
pub(super) struct Loads {
    pub(super) clean: Clean,
    pub(super) word: u64,
    pub(super) mark: u64,
}

/// Reads the place.
pub(super) fn reads<S: Subject>(marks: &Marks<S>, seat: &mut Seat<S>, place: u32) -> Loads
    requires table { IsSeatOf marks.now seat.old }
    requires there { place < places_of marks.now }
    ensures same { IsSeatOf marks.now seat.new }
    ensures read { HasReadPlace (S.worth (subject_of marks.now)) (S.touches (subject_of marks.now))
        (doing_of seat.old) place result.clean result.word result.mark (doing_of seat.new) }
{
    let clean = marks.read_clean(seat, place);
    let word = marks.read_value(seat, place);
    let mark = marks.read_mark(seat, place);
    Loads { clean, word, mark }
}

/// Claims a place that was read as stale, puts its worth after the seat's log and finishes for its last mark in it.
/// Whether the claim was taken.
fn works<S: Subject>(
    marks: &Marks<S>,
    seat: &mut Seat<S>,
    place: u32,
    seen: Clean,
    word: u64,
    mark: u64,
) -> bool
    requires table { IsSeatOf marks.now seat.old }
    requires there { place < places_of marks.now }
    requires stale { MayClaim (view_of seat.old) place seen }
    requires worth { S.worth (subject_of marks.now) (log_of seat.old) place ≡ word }
    requires last { IsLastMark (S.touches (subject_of marks.now)) (log_of seat.old) place mark }
    ensures same { IsSeatOf marks.now seat.new }
    ensures log { log_of seat.new ≡ log_of seat.old }
    ensures clean { result ≡ true → KnowsClean (S.touches (subject_of marks.now))
        (log_of seat.old) (view_of seat.new) place mark }
{
    let Ok(()) = marks.claim(seat, place, seen) else {
        return false;
    };
    marks.put(seat, place, word);
    marks.finish(seat, place, mark);
    true
}

/// Reads the place and, where it is stale and free, computes it: the seat knows so many entries, over which this word
/// is the place's worth. What the read found; and where a mark is given, the seat knows the place as clean, with it.
pub(super) fn recomputes<S: Subject>(
    marks: &Marks<S>,
    seat: &mut Seat<S>,
    place: u32,
    word: u64,
    known: u64,
) -> (Loads, Option<u64>)
    requires table { IsSeatOf marks.now seat.old }
    requires there { place < places_of marks.now }
    requires known { known ≡ length (log_of seat.old) }
    requires worth { S.worth (subject_of marks.now) (log_of seat.old) place ≡ word }
    ensures same { IsSeatOf marks.now seat.new }
    ensures log { log_of seat.new ≡ log_of seat.old }
    ensures clean { IfSome result.1 (λ mark. KnowsClean (S.touches (subject_of marks.now))
        (log_of seat.old) (view_of seat.new) place mark) }
{
    let loads = reads(marks, seat, place);
    if loads.mark > known {
        return (loads, None);
    }
    if loads.clean.is_for(loads.mark) {
        return (loads, Some(loads.mark));
    }
    if loads.clean.held || !works(marks, seat, place, loads.clean, word, loads.mark) {
        return (loads, None);
    }
    (loads, Some(loads.mark))
}
