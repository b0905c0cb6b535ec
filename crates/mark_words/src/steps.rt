#![tactic(auto)]

ghost use Rattle.std.specs.Prelude.{◌≡◌, ◌≤◌, ◌<◌, ◌+◌, length, [], Some, IsSome, true};
ghost use Rattle.mark_words.specs.Doing.{copy_of, with_see, with_mark, with_commit};
ghost use Rattle.mark_words.specs.Tokens.{IsSeatOf, subject_of, places_of};
ghost use Rattle.mark_core.specs.declared.events.Event.TheVariants.{See, Mark, Commit};
ghost use Rattle.mark_words.specs.Steps.{OneMore};
ghost use Rattle.mark_words.specs.Tokens.{doing_of, own_steps, log_of, seen_of, edits_of, is_editor};
ghost use Rattle.mark_words.specs.Editing.{IsIdleFor, IsAllMarked};
ghost use Rattle.mark_words.specs.Meets.{HasMet, KeepsClean};

use crate::marks::Marks;
use crate::plays::{Commits, Copies, MarksPlace, Sees, Unites};
use crate::seats::Seat;
use mark_core::Subject;

impl<S: Subject> Marks<S> {
    /// The count of commits: not below what the seat has seen, nor below the length of its log, and that length for
    /// the editor's seat. One load.
    pub fn see(&self, seat: &mut Seat<S>) -> u64
        requires table { IsSeatOf self.now seat.old }
        ensures same { IsSeatOf self.now seat.new }
        ensures doing { doing_of seat.new ≡ with_see (doing_of seat.old) result }
        ensures step { OneMore (own_steps seat.old) (own_steps seat.new) See result }
        ensures seen { seen_of seat.old ≤ result }
        ensures known { length (log_of seat.old) ≤ result }
        ensures editor { is_editor seat.old ≡ true → result ≡ length (log_of seat.old) }
    {
        self.table.shared.load::<Sees>(&mut seat.seat, 0)
    }

    /// A new seat, not the editor's, that has seen and knows what this one does. One load.
    pub fn split(&self, seat: &mut Seat<S>) -> Seat<S>
        requires table { IsSeatOf self.now seat.old }
        ensures same { IsSeatOf self.now seat.new }
        ensures kept { doing_of seat.new ≡ doing_of seat.old }
        ensures no_step { own_steps seat.new ≡ own_steps seat.old }
        ensures new { IsSeatOf self.now result }
        ensures copy { doing_of result ≡ copy_of (doing_of seat.old) }
        ensures blank { own_steps result ≡ [] }
    {
        let copy = self.table.shared.split_seat::<Copies>(&mut seat.seat);
        Seat {
            seat: copy,
            editor_marks: None,
        }
    }

    /// Marks the place for the entry, which is pending from then on and has this number. One compare-exchange, which
    /// always hits, since the editor alone stores marks.
    pub fn mark(&self, seat: &mut Seat<S>, entry: &S::Entry, place: u32, number: u64)
        requires table { IsSeatOf self.now seat.old }
        requires editor { is_editor seat.old ≡ true }
        requires there { place < places_of self.now }
        requires number { number ≡ length (log_of seat.old) + 1 }
        requires room { number ≤ 1048576 }
        requires idle { IsIdleFor (doing_of seat.old) entry.now }
        requires touched { S.touches (subject_of self.now) (log_of seat.old) entry.now place }
        ensures same { IsSeatOf self.now seat.new }
        ensures doing { doing_of seat.new ≡ with_mark (doing_of seat.old) entry.now place number }
        ensures step { OneMore (own_steps seat.old) (own_steps seat.new)
            (λ view. Mark view entry.now place) number }
    {
        let Some(own) = seat.editor_marks.take() else {
            unreachable!()
        };
        let at = 3 * place as usize + 1;
        let old = own.mark(place);
        let shared = &self.table.shared;
        shared.compare_exchange_with::<MarksPlace>(&mut seat.seat, at, old, number, entry);
        seat.editor_marks = Some(own.with_mark(place, number));
    }

    /// Counts the pending entry, which is in the log from then on, and answers the new count. One store.
    pub fn commit(&self, seat: &mut Seat<S>) -> u64
        requires table { IsSeatOf self.now seat.old }
        requires editor { is_editor seat.old ≡ true }
        requires pending { IsSome (edits_of seat.old).pending }
        requires marked { IsAllMarked (places_of self.now)
            (S.touches (subject_of self.now)) (doing_of seat.old) }
        ensures same { IsSeatOf self.now seat.new }
        ensures count { result ≡ length (log_of seat.old) + 1 }
        ensures doing { (entry : S.Entry) → (edits_of seat.old).pending ≡ Some entry
            → doing_of seat.new ≡ with_commit (doing_of seat.old) entry }
        ensures step { (entry : S.Entry) → (edits_of seat.old).pending ≡ Some entry
            → OneMore (own_steps seat.old) (own_steps seat.new)
            (λ view. Commit view entry) result }
    {
        let Some(own) = seat.editor_marks.take() else {
            unreachable!()
        };
        let count = own.count + 1;
        self.table.shared.store::<Commits>(&mut seat.seat, 0, count);
        seat.editor_marks = Some(own.with_count(count));
        count
    }

    /// The seat takes over what the other one knows, which keeps its own. Three steps: a split of the other seat, a
    /// join of the new one, and a see.
    pub fn meet(&self, seat: &mut Seat<S>, other: &mut Seat<S>)
        requires table { IsSeatOf self.now seat.old }
        requires other_table { IsSeatOf self.now other.old }
        ensures same { IsSeatOf self.now seat.new }
        ensures other_same { IsSeatOf self.now other.new }
        ensures other_kept { doing_of other.new ≡ doing_of other.old }
        ensures step { OneMore (own_steps seat.old) (own_steps seat.new)
            See (seen_of seat.new) }
        ensures no_step { own_steps other.new ≡ own_steps other.old }
        ensures met { HasMet (doing_of seat.old) (doing_of other.old) (doing_of seat.new) }
        ensures clean { KeepsClean (S.touches (subject_of self.now))
            (doing_of seat.old) (doing_of other.old) (doing_of seat.new) }
    {
        let shared = &self.table.shared;
        let note = shared.split_seat::<Copies>(&mut other.seat);
        shared.join_seat::<Unites>(&mut seat.seat, note);
        let _ = shared.load::<Sees>(&mut seat.seat, 0);
    }
}
