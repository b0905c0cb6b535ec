ghost use Rattle.std.specs.Prelude.{◌<◌};
ghost use Rattle.mark_words.specs.Tokens.{IsSeatOf, subject_of, places_of};
ghost use Rattle.recalc_workers.specs.Seats.{HasRead, TellsOver};

use mark_core::{Clean, Subject};
use mark_words::{Marks, Seat};

/// What one read of a place loaded: its clean word, its value and its mark, in this order.
#[derive(Clone, Copy, Debug, PartialEq, Eq)]
pub(crate) struct Reading {
    pub(crate) clean: Clean,
    pub(crate) word: u64,
    pub(crate) mark: u64,
}

/// Reads the place, by three loads.
pub(crate) fn read_place<S: Subject>(marks: &Marks<S>, seat: &mut Seat<S>, place: u32) -> Reading
    requires table { IsSeatOf marks.now seat.old }
    requires there { place < places_of marks.now }
    ensures same { IsSeatOf marks.now seat.new }
    ensures read { HasRead seat.old place result seat.new }
    ensures tells { TellsOver (S.worth (subject_of marks.now)) (S.touches (subject_of marks.now))
        place result seat.new }
{
    let clean = marks.read_clean(seat, place);
    let word = marks.read_value(seat, place);
    let mark = marks.read_mark(seat, place);
    Reading { clean, word, mark }
}
