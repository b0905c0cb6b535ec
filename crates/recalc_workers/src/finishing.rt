ghost use Rattle.std.specs.Prelude.{◌≡◌, ◌<◌, OnOk, IfErr};
ghost use Rattle.mark_core.specs.Knows.{KnowsClean};
ghost use Rattle.mark_core.specs.Marks.{IsLastMark};
ghost use Rattle.mark_core.specs.Permissions.{MayClaim};
ghost use Rattle.mark_words.specs.Tokens.{IsSeatOf, subject_of, places_of, view_of, log_of};
ghost use Rattle.recalc_workers.specs.Seats.{HoldsNothing};
ghost use Rattle.recalc_workers.specs.Work.{HasFinished, HasLost};

use crate::gates::Gate;
use crate::reading::Reading;
use mark_core::{Clean, Subject};
use mark_words::{Marks, Seat};
use sheet_refs::Cell;

/// Puts the worth of the cell's place after the log that the seat knows, for its last mark there: a claim from the
/// clean word that was read, the put, and the finish. Err where the clean word is another one by now, with that one.
pub(crate) fn finish_at<S: Subject, G: Gate>(
    marks: &Marks<S>,
    seat: &mut Seat<S>,
    gate: &G,
    cell: Cell,
    place: u32,
    read: Reading,
    word: u64,
) -> Result<(), Clean>
    requires table { IsSeatOf marks.now seat.old }
    requires there { place < places_of marks.now }
    requires free { HoldsNothing seat.old }
    requires stale { MayClaim (view_of seat.old) place read.clean }
    requires worth { S.worth (subject_of marks.now) (log_of seat.old) place ≡ word }
    requires last { IsLastMark (S.touches (subject_of marks.now)) (log_of seat.old) place read.mark }
    ensures same { IsSeatOf marks.now seat.new }
    ensures finished { OnOk result
        (HasFinished seat.old place read.clean word read.mark seat.new) }
    ensures clean { OnOk result
        (KnowsClean (S.touches (subject_of marks.now)) (log_of seat.new) (view_of seat.new) place read.mark) }
    ensures lost { IfErr result
        (λ found. HasLost seat.old place read.clean found seat.new) }
{
    marks.claim(seat, place, read.clean)?;
    gate.between(cell);
    marks.put(seat, place, word);
    marks.finish(seat, place, read.mark);
    Ok(())
}
