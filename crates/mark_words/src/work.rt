#![tactic(auto)]

ghost use Rattle.std.specs.Prelude.{◌≡◌, ◌≢◌, ◌<◌, ◌+◌, ◌*◌, List, IfOk, IfErr};
ghost use Rattle.mark_core.specs.Knows.{KnowsClean};
ghost use Rattle.mark_core.specs.Marks.{IsLastMark};
ghost use Rattle.mark_core.specs.Permissions.{MayClaim, MayPut, MayFinish};
ghost use Rattle.mark_words.specs.Doing.{with_claim, with_refusal, with_word_put, with_finish};
ghost use Rattle.mark_core.specs.declared.events.Event.TheVariants.{Claim, Put, Finish};
ghost use Rattle.mark_words.specs.Steps.{OneMore};
ghost use Rattle.mark_words.specs.Words.{word_found};
ghost use Rattle.mark_words.specs.Tokens.{IsSeatOf, subject_of, places_of, doing_of, own_steps, view_of};

use crate::codes::{clean_of, word_of};
use crate::marks::Marks;
use crate::plays::{Claims, Finishes, Puts};
use crate::seats::Seat;
use mark_core::{Clean, Subject};

impl<S: Subject> Marks<S> {
    /// Holds the place, where its clean word is the one that was read as stale. Err where it is another one by now,
    /// with that one, which joins those that refused claims of the seat found. One compare-exchange.
    pub fn claim(&self, seat: &mut Seat<S>, place: u32, seen: Clean) -> Result<(), Clean>
        requires table { IsSeatOf self.now seat.old }
        requires there { place < places_of self.now }
        requires stale { MayClaim (view_of seat.old) place seen }
        ensures same { IsSeatOf self.now seat.new }
        ensures step { OneMore (own_steps seat.old) (own_steps seat.new)
            (λ view. Claim view place seen) (word_found seen result) }
        ensures taken { IfOk result
            (λ _. doing_of seat.new ≡ with_claim (doing_of seat.old) place) }
        ensures refused { IfErr result
            (λ found. doing_of seat.new ≡ with_refusal (doing_of seat.old) place found) }
        ensures differs { IfErr result (λ found. found ≢ seen) }
    {
        let at = 3 * place as usize + 2;
        let old = word_of(seen);
        let new = word_of(Clean { held: true, ..seen });
        let shared = &self.table.shared;
        let found = shared.compare_exchange::<Claims>(&mut seat.seat, at, old, new);
        if found == old {
            Ok(())
        } else {
            Err(clean_of(found))
        }
    }

    /// Stores the value of a place that the seat holds: a worth that it knows. One store.
    pub fn put(&self, seat: &mut Seat<S>, place: u32, word: u64)
        requires table { IsSeatOf self.now seat.old }
        requires there { place < places_of self.now }
        requires held { MayPut (S.worth (subject_of self.now)) (view_of seat.old) place word }
        ensures same { IsSeatOf self.now seat.new }
        ensures doing { doing_of seat.new ≡ with_word_put (doing_of seat.old) place word }
        ensures step { OneMore (own_steps seat.old) (own_steps seat.new)
            (λ view. Put view place word) word }
    {
        let at = 3 * place as usize + 3;
        self.table.shared.store::<Puts>(&mut seat.seat, at, word);
    }

    /// Gives a held place back, as computed for the mark: the last one in entries over which the word that was put is
    /// the place's worth. Over each log in which it is the last one, the seat knows the place as clean from then on.
    /// One store.
    pub fn finish(&self, seat: &mut Seat<S>, place: u32, mark: u64)
        requires table { IsSeatOf self.now seat.old }
        requires there { place < places_of self.now }
        requires computed { MayFinish (S.worth (subject_of self.now))
            (S.touches (subject_of self.now)) (view_of seat.old) place mark }
        ensures same { IsSeatOf self.now seat.new }
        ensures doing { doing_of seat.new ≡ with_finish (doing_of seat.old) place mark }
        ensures step { OneMore (own_steps seat.old) (own_steps seat.new)
            (λ view. Finish view place mark) (2 * (mark + 1)) }
        ensures clean { (log : List S.Entry)
            → IsLastMark (S.touches (subject_of self.now)) log place mark
            → KnowsClean (S.touches (subject_of self.now)) log (view_of seat.new) place mark }
    {
        let at = 3 * place as usize + 2;
        let free = word_of(Clean {
            upto: mark + 1,
            held: false,
        });
        self.table
            .shared
            .store::<Finishes>(&mut seat.seat, at, free);
    }
}
