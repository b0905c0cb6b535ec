#![tactic(auto)]

ghost use Rattle.std.specs.Prelude.{◌≡◌, ◌↔◌, IsTrue, ◌<◌, ◌^◌, length, IfOk, OnErr};
ghost use Rattle.mark_core.specs.States.{opening_state};
ghost use Rattle.mark_core.specs.Cores.{state_of, subject_of, Allows, Steps};
ghost use Rattle.mark_core.specs.Permissions.{HasRoom};
ghost use Rattle.mark_core.specs.Runs.{IsOpening};

use crate::events::{Event, Outcome};
use crate::machine::Machine;
use crate::subjects::Subject;
use crate::words::Memory;
use std::alloc::Global;

/// The protocol over one subject, one event at a time. Contracts see the subject and the state.
#[derive(Drop)]
pub struct Core<S: Subject> {
    subject: S,
    state: Machine<S::Entry>,
}

impl<S: Subject> Core<S> {
    /// The opening state: each place has the code that `opening` gives, or none. One step for each place.
    /// After `Memory` the subject is dropped.
    pub fn open(alloc: Global, subject: S, opening: &[Option<u64>]) -> Result<Core<S>, Memory>
        requires few { length opening.now < 2 ^ 32 }
        requires right { IsOpening (S.places subject) (S.worth subject) opening.now }
        ensures { IfOk result
            (λ core. (subject_of core ≡ subject) × (state_of core ≡ opening_state opening.now)) }
    {
        let state = Machine::open(alloc, opening)?;
        Ok(Core { subject, state })
    }

    /// The subject.
    pub fn subject(&self) -> &S
        ensures { result.now ≡ subject_of self.now }
    {
        &self.subject
    }

    /// The state.
    pub(crate) fn state(&self) -> &Machine<S::Entry>
        ensures { result.now ≡ state_of self.now }
    {
        &self.state
    }

    /// Whether there is room for one more view, where the event makes one.
    pub fn has_room(&self, event: &Event<S::Entry>) -> bool
        ensures { IsTrue result ↔ HasRoom (state_of self.now) event.now }
    {
        match event {
            Event::Split { .. } => self.state.has_room(),
            _ => true,
        }
    }

    /// Does the event, which is allowed, and answers its outcome. After `Memory` the state is as before.
    pub fn step(&mut self, event: Event<S::Entry>) -> Result<Outcome, Memory>
        requires allowed { Allows S.worth S.touches self.old event }
        requires room { HasRoom (state_of self.old) event }
        ensures same_subject { subject_of self.new ≡ subject_of self.old }
        ensures ok { IfOk result
            (λ outcome. Steps S.worth S.touches self.old event outcome (state_of self.new)) }
        ensures err { OnErr result (state_of self.new ≡ state_of self.old) }
    {
        match event {
            Event::See { view } => Ok(Outcome::Count(self.state.see(view)?)),
            Event::Mark { entry, place, .. } => {
                self.state.mark(entry, place)?;
                Ok(Outcome::Done)
            }
            Event::Commit { entry, .. } => Ok(Outcome::Count(self.state.commit(entry)?)),
            Event::Split { view } => Ok(Outcome::Seat(self.state.split(view)?)),
            Event::Join { view, other } => {
                self.state.join(view, other)?;
                Ok(Outcome::Done)
            }
            Event::ReadClean { view, place } => {
                Ok(Outcome::Clean(self.state.read_clean(view, place)))
            }
            Event::ReadValue { view, place } => {
                Ok(Outcome::Word(self.state.read_value(view, place)))
            }
            Event::ReadMark { view, place } => {
                Ok(Outcome::Mark(self.state.read_mark(view, place)?))
            }
            Event::Claim { view, place, seen } => {
                Ok(Outcome::Claimed(self.state.claim(view, place, seen)?))
            }
            Event::Put { view, place, word } => {
                self.state.put(view, place, word);
                Ok(Outcome::Done)
            }
            Event::Finish { view, place, mark } => {
                self.state.finish(view, place, mark)?;
                Ok(Outcome::Done)
            }
        }
    }
}
