ghost use Rattle.recalc_workers.specs.TurnLaws.{DoneIsOneFinish, OthersFinishNothing, OthersLoseNothing, HoldsStay};
ghost use Rattle.recalc_workers.specs.TurnLaws.{NothingWasClean, LaterIsPast, StaleHasAnInput};
ghost use Rattle.recalc_workers.specs.TurnLaws.{BusyFoundAnother, IdleTakesNone};
ghost use Rattle.recalc_workers.specs.TurnLaws.{TakesOneAndOffersNone, TakesOneAndOffersIt};
ghost use Rattle.mark_words.specs.Tokens.{subject_of};

use mark_words::{Marks, Seat};
use sheet_model::SheetSubject;

/// What the causes of a turn's answers come to. `Done` comes with one finish more, for the mark of a read that the turn
/// made, and ends with a claim, a put and that finish; no other answer comes with one, and none but `Busy` with a
/// refused claim. `Nothing`, `Later`, `Stale` and `Busy` each come with a read that the turn made, and what it shows. A
/// turn takes one job, or none where it is idle; it offers that job again, with one try less, exactly where the cell is
/// to be tried again and tries are left.
pub fn turn_laws<S: SheetSubject>(_marks: &Marks<S>, _seat: &Seat<S>)
    ensures done { DoneIsOneFinish (S.opening (subject_of _marks.now)) _seat.now }
    ensures others { OthersFinishNothing (S.opening (subject_of _marks.now)) _seat.now }
    ensures lost { OthersLoseNothing (S.opening (subject_of _marks.now)) _seat.now }
    ensures holds { HoldsStay (S.opening (subject_of _marks.now)) _seat.now }
    ensures nothing { NothingWasClean (S.opening (subject_of _marks.now)) _seat.now }
    ensures later { LaterIsPast (S.opening (subject_of _marks.now)) _seat.now }
    ensures stale { StaleHasAnInput (S.opening (subject_of _marks.now)) _seat.now }
    ensures busy { BusyFoundAnother (S.opening (subject_of _marks.now)) _seat.now }
    ensures idle { IdleTakesNone }
    ensures one { TakesOneAndOffersNone }
    ensures again { TakesOneAndOffersIt }
{}
