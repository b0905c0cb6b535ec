#![tactic(auto)]

ghost use Rattle.std.specs.Prelude.{◌≡◌, ◌≤◌, ◌<◌, length, None, true};
ghost use Rattle.mark_core.specs.Views.{new_half};
ghost use Rattle.mark_core.specs.Growth.{BeginsRead};
ghost use Rattle.mark_words.specs.Doing.{with_clean_read, with_value_read, with_mark_read};
ghost use Rattle.mark_words.specs.Tokens.{IsSeatOf, subject_of, places_of};
ghost use Rattle.mark_core.specs.declared.events.Event.TheVariants.{ReadClean, ReadValue, ReadMark};
ghost use Rattle.mark_words.specs.Steps.{OneMore};
ghost use Rattle.mark_words.specs.Words.{word_of_clean};
ghost use Rattle.mark_words.specs.Tokens.{doing_of, own_steps, view_of, log_of, edits_of, is_editor};
ghost use Rattle.mark_words.specs.Reads.{GoesOn, Ends, TellsOfRead, LearnsClean};

use crate::codes::clean_of;
use crate::marks::Marks;
use crate::plays::{ReadsClean, ReadsMark, ReadsValue};
use crate::seats::Seat;
use mark_core::{Clean, Subject};

impl<S: Subject> Marks<S> {
    /// The clean word of the place, with which a read of it begins: its floor is above each mark for which the seat
    /// knows the place as computed. A read that had begun is given up. One load.
    pub fn read_clean(&self, seat: &mut Seat<S>, place: u32) -> Clean
        requires table { IsSeatOf self.now seat.old }
        requires there { place < places_of self.now }
        ensures same { IsSeatOf self.now seat.new }
        ensures doing { doing_of seat.new ≡ with_clean_read (doing_of seat.old) place result }
        ensures step { OneMore (own_steps seat.old) (own_steps seat.new)
            (λ view. ReadClean view place) (word_of_clean result) }
        ensures begins { BeginsRead (view_of seat.old) place
            (new_half (view_of seat.old) place result) }
    {
        let at = 3 * place as usize + 2;
        clean_of(self.table.shared.load::<ReadsClean>(&mut seat.seat, at))
    }

    /// The value of the place, with which a begun read of it goes on. One load.
    pub fn read_value(&self, seat: &mut Seat<S>, place: u32) -> u64
        requires table { IsSeatOf self.now seat.old }
        requires there { place < places_of self.now }
        ensures same { IsSeatOf self.now seat.new }
        ensures doing { doing_of seat.new ≡ with_value_read (doing_of seat.old) place result }
        ensures step { OneMore (own_steps seat.old) (own_steps seat.new)
            (λ view. ReadValue view place) result }
        ensures goes_on { GoesOn (doing_of seat.old) place result (doing_of seat.new) }
    {
        let at = 3 * place as usize + 3;
        self.table.shared.load::<ReadsValue>(&mut seat.seat, at)
    }

    /// The mark of the place, with which a begun read of it ends. What such a read tells is said over the log that the
    /// seat knows; where it read a word that was computed for the mark, the seat knows the place as computed for it.
    /// For the editor's seat, while nothing is pending, the mark is within that log. One load.
    pub fn read_mark(&self, seat: &mut Seat<S>, place: u32) -> u64
        requires table { IsSeatOf self.now seat.old }
        requires there { place < places_of self.now }
        ensures same { IsSeatOf self.now seat.new }
        ensures doing { doing_of seat.new ≡ with_mark_read (doing_of seat.old) place result }
        ensures step { OneMore (own_steps seat.old) (own_steps seat.new)
            (λ view. ReadMark view place) result }
        ensures ends { Ends (doing_of seat.old) place result (doing_of seat.new) }
        ensures tells { TellsOfRead (S.worth (subject_of self.now)) (S.touches (subject_of self.now))
            (doing_of seat.old) place result }
        ensures clean { LearnsClean (S.touches (subject_of self.now))
            (doing_of seat.old) place result (doing_of seat.new) }
        ensures editor { is_editor seat.old ≡ true → (edits_of seat.old).pending ≡ None
            → result ≤ length (log_of seat.old) }
    {
        let at = 3 * place as usize + 1;
        self.table.shared.load::<ReadsMark<S>>(&mut seat.seat, at)
    }
}
