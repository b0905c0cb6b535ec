#![tactic(auto)]

ghost use Rattle.std.specs.Prelude.{◌≡◌, ◌+◌, ◌<◌, ◌^◌, []};
ghost use Rattle.std.specs.Prelude.{max, ℕ, All, IfOk, OnOk, OnErr};
ghost use Rattle.std.specs.Prelude.{map};
ghost use Rattle.mark_core.specs.declared.actors.View.{View};
ghost use Rattle.mark_core.specs.States.{spent_with, new_view};
ghost use Rattle.mark_core.specs.Views.{with_count, split_off, union_with, floor_of, with_half};
ghost use Rattle.mark_core.specs.Views.{with_value, with_read_end, with_hold, with_loss, hold_with};
ghost use Rattle.mark_core.specs.Views.{with_put, without_hold};
ghost use Rattle.std.specs.Prelude.{filter, not, ◌==◌, if◌then◌else◌};

use crate::words::{Clean, Finished, Half, Held, Known, Lost, Memory};
use std::alloc::Global;
use std::marker::Model;

/// What the machine keeps of one view. Of the log it keeps a count: the view knows so many of the first
/// entries.
#[derive(Drop)]
pub struct Stored {
    spent: bool,
    entries: usize,
    seen: u64,
    sees: Vec<u64>,
    known: Vec<Known>,
    half: Option<Half>,
    reads: Vec<Finished>,
    holds: Vec<Held>,
    done: Vec<Known>,
    lost: Vec<Lost>,
}

impl Model for Stored {
    ghost use Rattle.std.specs.Prelude.{ℕ, ◌+◌, ◌^◌, ◌<◌, All};
    ghost use Rattle.mark_core.specs.declared.actors.View.{View};

    ghost Value = { View ℕ };

    ghost view = { λ s. record {
      spent = s.spent;
      log = s.entries;
      seen = s.seen;
      sees = s.sees.items;
      known = s.known.items;
      half = s.half;
      reads = s.reads.items;
      holds = s.holds.items;
      done = s.done.items;
      lost = s.lost.items;
    } };

    ghost invariant = { λ s. All (λ pair. pair.mark + 1 < 2 ^ 64) s.known.items };
}

impl Stored {
    /// The editor's view as the machine opens.
    pub fn editor(alloc: Global) -> Stored
        ensures { result ≡ new_view 0 0 [] }
    {
        Stored {
            spent: false,
            entries: 0,
            seen: 0,
            sees: Vec::new(alloc),
            known: Vec::new(alloc),
            half: None,
            reads: Vec::new(alloc),
            holds: Vec::new(alloc),
            done: Vec::new(alloc),
            lost: Vec::new(alloc),
        }
    }

    /// A view that was joined into another.
    pub fn new_spent(alloc: Global) -> Stored
        ensures { result ≡ spent_with 0 }
    {
        Stored {
            spent: true,
            entries: 0,
            seen: 0,
            sees: Vec::new(alloc),
            known: Vec::new(alloc),
            half: None,
            reads: Vec::new(alloc),
            holds: Vec::new(alloc),
            done: Vec::new(alloc),
            lost: Vec::new(alloc),
        }
    }

    /// Whether the view was joined into another.
    pub fn is_spent(&self) -> bool
        ensures { result ≡ self.now.spent }
    {
        self.spent
    }

    /// How many of the log's entries the view knows.
    pub fn entries(&self) -> usize
        ensures { result ≡ self.now.log }
    {
        self.entries
    }

    /// The finished reads.
    pub fn reads(&self) -> &[Finished]
        ensures { result.now ≡ self.now.reads }
    {
        &self.reads
    }

    /// The held places.
    pub fn holds(&self) -> &[Held]
        ensures { result.now ≡ self.now.holds }
    {
        &self.holds
    }

    /// Notes the count of commits.
    pub fn see(&mut self, count: u64) -> Result<(), Memory>
        ensures ok { OnOk result (self.new ≡ with_count self.old count) }
        ensures err { OnErr result (self.new ≡ self.old) }
    {
        self.sees.push(count)?;
        self.seen = count;
        Ok(())
    }

    /// Notes a commit that the view made, after which the log has so many entries.
    pub fn commit(&mut self, count: usize)
        ensures { self.new ≡ record self.old { log = count; seen = count } }
    {
        self.entries = count;
        self.seen = count as u64;
    }

    /// A new view that knows what this one does.
    pub fn split(&self, alloc: Global) -> Result<Stored, Memory>
        ensures { IfOk result (λ view. view ≡ split_off self.now) }
    {
        let known = self.known.to_vec(alloc)?;
        Ok(Stored {
            spent: false,
            entries: self.entries,
            seen: self.seen,
            sees: Vec::new(alloc),
            known,
            half: None,
            reads: Vec::new(alloc),
            holds: Vec::new(alloc),
            done: Vec::new(alloc),
            lost: Vec::new(alloc),
        })
    }

    /// Takes over all that the other view knows and has done.
    pub fn join(&mut self, other: &Stored) -> Result<(), Memory>
        ensures ok { OnOk result
            (self.new ≡ union_with (max self.old.log other.now.log) self.old other.now) }
        ensures err { OnErr result (self.new ≡ self.old) }
    {
        self.sees.try_reserve(other.sees.len())?;
        self.known.try_reserve(other.known.len())?;
        self.reads.try_reserve(other.reads.len())?;
        self.done.try_reserve(other.done.len())?;
        self.lost.try_reserve(other.lost.len())?;
        let _ = self.sees.extend_from_slice(&other.sees);
        let _ = self.known.extend_from_slice(&other.known);
        let _ = self.reads.extend_from_slice(&other.reads);
        let _ = self.done.extend_from_slice(&other.done);
        let _ = self.lost.extend_from_slice(&other.lost);
        self.entries = self.entries.max(other.entries);
        self.seen = self.seen.max(other.seen);
        Ok(())
    }

    /// Begins a read of the place.
    pub fn begin(&mut self, place: u32, clean: Clean)
        ensures { self.new ≡ with_half self.old place clean }
    {
        let floor = floor(&self.known, place);
        self.half = Some(Half {
            place,
            clean,
            floor,
            word: None,
        });
    }

    /// Goes on with the begun read, where it is one of this place.
    pub fn go_on(&mut self, place: u32, word: u64)
        ensures { self.new ≡ with_value self.old place word }
    {
        self.half = match self.half {
            Some(half) if half.place == place => Some(Half {
                word: Some(word),
                ..half
            }),
            other => other,
        };
    }

    /// Ends the begun read, where it is one of this place.
    pub fn end(&mut self, place: u32, mark: u64) -> Result<(), Memory>
        ensures ok { OnOk result (self.new ≡ with_read_end self.old place mark) }
        ensures err { OnErr result (self.new ≡ self.old) }
    {
        let Some(half) = self.half else {
            return Ok(());
        };
        if half.place != place {
            return Ok(());
        }
        self.reads.try_reserve(1)?;
        if half.word.is_some() && half.clean.is_for(mark) {
            self.known.push(Known { place, mark })?;
        }
        let _ = self.reads.push(Finished {
            number: self.seen,
            place,
            clean: half.clean,
            word: half.word,
            mark,
            floor: half.floor,
        });
        self.half = None;
        Ok(())
    }

    /// Notes a claim that took the place.
    pub fn take(&mut self, place: u32) -> Result<(), Memory>
        ensures ok { OnOk result (self.new ≡ with_hold self.old place) }
        ensures err { OnErr result (self.new ≡ self.old) }
    {
        self.holds.push(Held { place, word: None })?;
        Ok(())
    }

    /// Notes a claim that was refused, with the clean word that it found.
    pub fn miss(&mut self, place: u32, found: Clean) -> Result<(), Memory>
        ensures ok { OnOk result (self.new ≡ with_loss self.old place found) }
        ensures err { OnErr result (self.new ≡ self.old) }
    {
        self.lost.push(Lost { place, found })?;
        Ok(())
    }

    /// Notes the word that was put to a held place.
    pub fn put(&mut self, place: u32, word: u64)
        ensures { self.new ≡ with_put self.old place word }
    {
        put_word(&mut self.holds, place, word);
    }

    /// Gives a held place back, as computed for the mark.
    pub fn give_back(&mut self, place: u32, mark: u64) -> Result<(), Memory>
        requires { mark + 1 < 2 ^ 64 }
        ensures ok { OnOk result (self.new ≡ without_hold self.old place mark) }
        ensures err { OnErr result (self.new ≡ self.old) }
    {
        self.known.try_reserve(1)?;
        self.done.push(Known { place, mark })?;
        let _ = self.known.push(Known { place, mark });
        drop_hold(&mut self.holds, place);
        Ok(())
    }
}

/// One more than the greatest mark for which the place is known, and 0 where it isn't known.
fn floor(known: &[Known], place: u32) -> u64
    requires { All (λ pair. pair.mark + 1 < 2 ^ 64) known.now }
    ensures { result ≡ floor_of known.now place }
{
    let mut floor = 0;
    for pair in known {
        floor = floor.max(floor_by(*pair, place));
    }
    floor
}

/// The floor that one known pair gives.
fn floor_by(pair: Known, place: u32) -> u64
    requires { pair.mark + 1 < 2 ^ 64 }
    ensures { result ≡ (if pair.place == place then pair.mark + 1 else 0) }
{
    if pair.place == place {
        pair.mark + 1
    } else {
        0
    }
}

/// Notes the word at each hold of the place.
fn put_word(holds: &mut [Held], place: u32, word: u64)
    ensures { holds.new ≡ map (hold_with place word) holds.old }
{
    for hold in holds.iter_mut() {
        *hold = with_word(*hold, place, word);
    }
}

/// The hold with the word, where it is one of the place.
fn with_word(hold: Held, place: u32, word: u64) -> Held
    ensures { result ≡ hold_with place word hold }
{
    if hold.place == place {
        Held {
            place,
            word: Some(word),
        }
    } else {
        hold
    }
}

/// Drops each hold of the place.
fn drop_hold(holds: &mut Vec<Held>, place: u32)
    ensures { holds.new.items ≡ filter (λ hold. not (hold.place == place)) holds.old.items }
{
    holds.retain(|hold| hold.place != place);
}
