#![tactic(auto)]

ghost use Rattle.std.specs.Prelude.{◌≡◌, ◌<◌, ◌+◌, ◌↔◌, ◌⊎◌};
ghost use Rattle.std.specs.Prelude.{◌≤◌, ℕ, length, IsTrue, IfOk};
ghost use Rattle.std.specs.Prelude.{Contains, Any, Some, None};
ghost use Rattle.mark_core.specs.declared.events.Event.{Event};
ghost use Rattle.mark_core.specs.Marks.{IsTouched, IsLastMark, NoneTouches};
ghost use Rattle.mark_core.specs.Cores.{state_of, Allows};
ghost use Rattle.mark_core.specs.Permissions.{IsWorthKnown, IsWorthMarked, IsGround};
ghost use Rattle.mark_core.specs.Permissions.{IsMarkedHold, Belong};

use crate::events::Event;
use crate::protocol::Core;
use crate::subjects::Judge;
use crate::words::{Clean, Finished, Held, Memory};
use std::alloc::Global;

/// Whether the entry at this index touches the place after the entries before it.
fn touches_at<S: Judge>(
    alloc: Global,
    subject: &S,
    log: &[S::Entry],
    place: u32,
    index: usize,
) -> Result<bool, Memory>
    requires { index < length log.now }
    ensures { IfOk result
        (λ b. IsTrue b ↔ IsTouched (S.touches subject.now) log.now place (index + 1)) }
{
    subject.touches_now(alloc, &log[..index], &log[index], place)
}

/// Whether the mark is the place's last mark in the log. One judgement for each entry past the mark.
fn is_last_mark<S: Judge>(
    alloc: Global,
    subject: &S,
    log: &[S::Entry],
    place: u32,
    mark: usize,
) -> Result<bool, Memory>
    ensures { IfOk result (λ b. IsTrue b ↔ IsLastMark (S.touches subject.now) log.now place mark) }
{
    if mark > log.len() || !is_mark(alloc, subject, log, place, mark)? {
        return Ok(false);
    }
    none_touches(alloc, subject, log, place, mark)
}

/// Whether the mark is 0 or the number of an entry that touches the place.
fn is_mark<S: Judge>(
    alloc: Global,
    subject: &S,
    log: &[S::Entry],
    place: u32,
    mark: usize,
) -> Result<bool, Memory>
    requires { mark ≤ length log.now }
    ensures { IfOk result
        (λ b. IsTrue b ↔ (0 < mark → IsTouched (S.touches subject.now) log.now place mark)) }
{
    if mark == 0 {
        return Ok(true);
    }
    touches_at(alloc, subject, log, place, mark - 1)
}

/// Whether no entry from this index on touches the place.
fn none_touches<S: Judge>(
    alloc: Global,
    subject: &S,
    log: &[S::Entry],
    place: u32,
    from: usize,
) -> Result<bool, Memory>
    ensures { IfOk result
        (λ b. IsTrue b ↔ NoneTouches (S.touches subject.now) log.now place from) }
{
    for index in from..log.len() {
        if touches_at(alloc, subject, log, place, index)? {
            return Ok(false);
        }
    }
    Ok(true)
}

/// Whether the word is the place's worth after the log, and the mark its last mark in it.
fn belongs<S: Judge>(
    alloc: Global,
    subject: &S,
    log: &[S::Entry],
    place: u32,
    word: u64,
    mark: u64,
) -> Result<bool, Memory>
    ensures { IfOk result
        (λ b. IsTrue b ↔ Belong S.worth S.touches subject.now log.now place word mark) }
{
    if subject.worth_now(alloc, log, place)? != word {
        return Ok(false);
    }
    is_last_mark(alloc, subject, log, place, mark as usize)
}

/// Whether the word is the place's worth after some of the first entries.
fn knows_worth<S: Judge>(
    alloc: Global,
    subject: &S,
    log: &[S::Entry],
    place: u32,
    word: u64,
) -> Result<bool, Memory>
    ensures { IfOk result (λ b. IsTrue b ↔ IsWorthKnown (S.worth subject.now) log.now place word) }
{
    for count in 0..log.len() {
        if subject.worth_now(alloc, &log[..count], place)? == word {
            return Ok(true);
        }
    }
    Ok(subject.worth_now(alloc, log, place)? == word)
}

/// Whether the word and the mark belong to some of the first entries.
fn knows_marked<S: Judge>(
    alloc: Global,
    subject: &S,
    log: &[S::Entry],
    place: u32,
    word: u64,
    mark: u64,
) -> Result<bool, Memory>
    ensures { IfOk result
        (λ b. IsTrue b ↔
        IsWorthMarked (S.worth subject.now) (S.touches subject.now) log.now place word mark) }
{
    for count in 0..log.len() {
        if belongs(alloc, subject, &log[..count], place, word, mark)? {
            return Ok(true);
        }
    }
    belongs(alloc, subject, log, place, word, mark)
}

/// Whether some hold of the place has a word that belongs with the mark to some of the first entries.
fn any_marked<S: Judge>(
    alloc: Global,
    subject: &S,
    log: &[S::Entry],
    holds: &[Held],
    place: u32,
    mark: u64,
) -> Result<bool, Memory>
    ensures { IfOk result
        (λ b. IsTrue b ↔ Any (λ hold. IsMarkedHold
        (S.worth subject.now) (S.touches subject.now) log.now place mark hold) holds.now) }
{
    for hold in holds {
        if is_marked_hold(alloc, subject, log, *hold, place, mark)? {
            return Ok(true);
        }
    }
    Ok(false)
}

/// Whether the hold is one of the place with a word that belongs with the mark.
fn is_marked_hold<S: Judge>(
    alloc: Global,
    subject: &S,
    log: &[S::Entry],
    hold: Held,
    place: u32,
    mark: u64,
) -> Result<bool, Memory>
    ensures { IfOk result
        (λ b. IsTrue b ↔
        IsMarkedHold (S.worth subject.now) (S.touches subject.now) log.now place mark hold) }
{
    match hold.word {
        Some(word) if hold.place == place => {
            knows_marked(alloc, subject, log, place, word, mark)
        }
        _ => Ok(false),
    }
}

/// Whether each place that the entry touches is among the marked ones. One judgement for each place, and
/// a look through the marked ones.
fn all_marked<S: Judge>(
    alloc: Global,
    subject: &S,
    log: &[S::Entry],
    entry: &S::Entry,
    marked: &[u32],
    places: u32,
) -> Result<bool, Memory>
    ensures { IfOk result
        (λ b. IsTrue b ↔ ((place : ℕ) → place < places
        → S.touches subject.now log.now entry.now place → Contains marked.now place)) }
{
    for place in 0..places {
        if !is_covered(alloc, subject, log, entry, marked, place)? {
            return Ok(false);
        }
    }
    Ok(true)
}

/// Whether the place is among the marked ones, if the entry touches it.
fn is_covered<S: Judge>(
    alloc: Global,
    subject: &S,
    log: &[S::Entry],
    entry: &S::Entry,
    marked: &[u32],
    place: u32,
) -> Result<bool, Memory>
    ensures { IfOk result
        (λ b. IsTrue b
        ↔ (S.touches subject.now log.now entry.now place → Contains marked.now place)) }
{
    if marked.contains(&place) {
        return Ok(true);
    }
    let touched = subject.touches_now(alloc, log, entry, place)?;
    Ok(!touched)
}

/// Whether one of the reads allows a claim of the place from this clean word.
fn has_ground(reads: &[Finished], place: u32, seen: Clean) -> bool
    ensures { IsTrue result ↔ Any (λ read. IsGround read place seen) reads.now }
{
    reads.iter().any(|read| is_ground(*read, place, seen))
}

/// Whether the read is one of the place with the clean word, which it shows as stale.
fn is_ground(read: Finished, place: u32, seen: Clean) -> bool
    ensures { IsTrue result ↔ IsGround read place seen }
{
    read.place == place && read.clean == seen && seen.upto <= read.mark
}

/// Whether one of the holds is of the place.
fn holds_place(holds: &[Held], place: u32) -> bool
    ensures { IsTrue result ↔ Any (λ hold. hold.place ≡ place) holds.now }
{
    holds.iter().any(|hold| hold.place == place)
}

impl<S: Judge> Core<S> {
    /// Whether the event is allowed in the present state. A put or a finish may take a judgement for each
    /// entry that the view knows, and a finish one for each pair of them; a commit takes one for each
    /// place.
    pub fn allows(&self, event: &Event<S::Entry>) -> Result<bool, Memory>
        ensures { IfOk result
            (λ allowed. IsTrue allowed ↔ Allows S.worth S.touches self.now event.now) }
    {
        match event {
            Event::See { view } | Event::Split { view } => Ok(self.state().is_live(*view)),
            Event::Mark { view, entry, place } => self.allows_mark(*view, entry, *place),
            Event::Commit { view, entry } => self.allows_commit(*view, entry),
            Event::Join { view, other } => Ok(self.allows_join(*view, *other)),
            Event::ReadClean { view, place }
            | Event::ReadValue { view, place }
            | Event::ReadMark { view, place } => Ok(self.state().may_step_at(*view, *place)),
            Event::Claim { view, place, seen } => Ok(self.allows_claim(*view, *place, *seen)),
            Event::Put { view, place, word } => self.allows_put(*view, *place, *word),
            Event::Finish { view, place, mark } => self.allows_finish(*view, *place, *mark),
        }
    }

    /// Whether the editor may mark the place for the entry.
    fn allows_mark(&self, view: u32, entry: &S::Entry, place: u32) -> Result<bool, Memory>
        ensures { IfOk result
            (λ b. IsTrue b ↔ Allows S.worth S.touches self.now (Event.Mark view entry.now place)) }
    {
        if view != 0 || !self.state().may_step_at(view, place) || !self.may_pend(entry) {
            return Ok(false);
        }
        let alloc = self.state().allocator();
        self.subject()
            .touches_now(alloc, self.state().log_of(view), entry, place)
    }

    /// Whether nothing is pending, or this entry is.
    fn may_pend(&self, entry: &S::Entry) -> bool
        ensures { IsTrue result ↔ (((state_of self.now).edits.pending ≡ None)
            ⊎ ((state_of self.now).edits.pending ≡ Some entry.now)) }
    {
        match self.state().pending_entry() {
            None => true,
            Some(pending) => self.subject().same_now(pending, entry),
        }
    }

    /// Whether this entry is pending.
    fn is_pending(&self, entry: &S::Entry) -> bool
        ensures { IsTrue result ↔ ((state_of self.now).edits.pending ≡ Some entry.now) }
    {
        match self.state().pending_entry() {
            None => false,
            Some(pending) => self.subject().same_now(pending, entry),
        }
    }

    /// Whether the editor may commit the entry.
    fn allows_commit(&self, view: u32, entry: &S::Entry) -> Result<bool, Memory>
        ensures { IfOk result
            (λ b. IsTrue b ↔ Allows S.worth S.touches self.now (Event.Commit view entry.now)) }
    {
        if view != 0 || !self.state().is_live(view) || !self.is_pending(entry) {
            return Ok(false);
        }
        let state = self.state();
        all_marked(
            state.allocator(),
            self.subject(),
            state.log_of(view),
            entry,
            state.marked_places(),
            state.place_count(),
        )
    }

    /// Whether the other view may be joined into this one.
    fn allows_join(&self, view: u32, other: u32) -> bool
        ensures { IsTrue result ↔ Allows S.worth S.touches self.now (Event.Join view other) }
    {
        view != other
            && other != 0
            && self.state().is_live(view)
            && self.state().is_live(other)
            && self.state().holds(other).is_empty()
    }

    /// Whether the view may claim the place from this clean word.
    fn allows_claim(&self, view: u32, place: u32, seen: Clean) -> bool
        ensures { IsTrue result ↔ Allows S.worth S.touches self.now (Event.Claim view place seen) }
    {
        self.state().may_step_at(view, place)
            && !seen.held
            && has_ground(self.state().reads(view), place, seen)
    }

    /// Whether the view may put the word to the place.
    fn allows_put(&self, view: u32, place: u32, word: u64) -> Result<bool, Memory>
        ensures { IfOk result
            (λ b. IsTrue b ↔ Allows S.worth S.touches self.now (Event.Put view place word)) }
    {
        let state = self.state();
        if !state.may_step_at(view, place) || !holds_place(state.holds(view), place) {
            return Ok(false);
        }
        knows_worth(
            state.allocator(),
            self.subject(),
            state.log_of(view),
            place,
            word,
        )
    }

    /// Whether the view may give the place back for the mark.
    fn allows_finish(&self, view: u32, place: u32, mark: u64) -> Result<bool, Memory>
        ensures { IfOk result
            (λ b. IsTrue b ↔ Allows S.worth S.touches self.now (Event.Finish view place mark)) }
    {
        let state = self.state();
        if !state.may_step_at(view, place) {
            return Ok(false);
        }
        any_marked(
            state.allocator(),
            self.subject(),
            state.log_of(view),
            state.holds(view),
            place,
            mark,
        )
    }
}
