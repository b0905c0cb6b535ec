#![tactic(auto)]

ghost use Rattle.std.specs.Prelude.{◌≡◌, ◌<◌, ◌↔◌, ◌-◌, ◌^◌, length, IsTrue, MatchOption, Some};
ghost use Rattle.std.specs.Prelude.{None};
ghost use Rattle.mark_core.specs.States.{view_at};
ghost use Rattle.mark_core.specs.Permissions.{IsLive, MayStepAt};

use crate::machine::Machine;
use crate::words::{Finished, Held};
use std::alloc::Global;

impl<E> Machine<E> {
    /// The allocator of the machine's lists.
    pub fn allocator(&self) -> Global {
        self.alloc
    }

    /// Whether one more view can have a number.
    pub fn has_room(&self) -> bool
        ensures { IsTrue result ↔ (length self.now.views < 2 ^ 32 - 1) }
    {
        self.views.len() < u32::MAX as usize
    }

    /// Whether the view is there and isn't spent.
    pub fn is_live(&self, view: u32) -> bool
        ensures { IsTrue result ↔ IsLive (view_at self.now view) }
    {
        match self.views.get(view as usize) {
            Some(stored) => !stored.is_spent(),
            None => false,
        }
    }

    /// Whether the view and the place are there, and the view isn't spent.
    pub fn may_step_at(&self, view: u32, place: u32) -> bool
        ensures { IsTrue result ↔ MayStepAt (length self.now.places) (view_at self.now view) place }
    {
        (place as usize) < self.places.len() && self.is_live(view)
    }

    /// How many places there are.
    pub fn place_count(&self) -> u32
        ensures { result ≡ length self.now.places }
    {
        self.places.len() as u32
    }

    /// The entries that the view knows.
    pub fn log_of(&self, view: u32) -> &[E]
        ensures { result.now ≡ (view_at self.now view).log }
    {
        match self.views.get(view as usize) {
            Some(stored) => &self.log[..stored.entries()],
            None => &[],
        }
    }

    /// The pending entry.
    pub fn pending_entry(&self) -> Option<&E>
        ensures { MatchOption result
            (self.now.edits.pending ≡ None) (λ entry. self.now.edits.pending ≡ Some entry.now) }
    {
        self.pending.as_ref()
    }

    /// The places that are marked for the pending entry.
    pub fn marked_places(&self) -> &[u32]
        ensures { result.now ≡ self.now.edits.marked }
    {
        &self.marked
    }

    /// The view's finished reads.
    pub fn reads(&self, view: u32) -> &[Finished]
        ensures { result.now ≡ (view_at self.now view).reads }
    {
        match self.views.get(view as usize) {
            Some(stored) => stored.reads(),
            None => &[],
        }
    }

    /// The places that the view holds.
    pub fn holds(&self, view: u32) -> &[Held]
        ensures { result.now ≡ (view_at self.now view).holds }
    {
        match self.views.get(view as usize) {
            Some(stored) => stored.holds(),
            None => &[],
        }
    }
}
