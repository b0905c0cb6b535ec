#![tactic(auto)]

ghost use Rattle.std.specs.Prelude.{◌≡◌, ◌<◌, ◌+◌, length, IfOk, OnOk, OnErr};
ghost use Rattle.mark_core.specs.Steps.{after_see, after_mark, after_commit};

use crate::machine::Machine;
use crate::words::Memory;

impl<E: Drop> Machine<E> {
    /// The view loads the count of commits.
    pub fn see(&mut self, view: u32) -> Result<u64, Memory>
        requires { view < length self.old.views }
        ensures ok { IfOk result
            (λ count. (count ≡ length self.old.edits.log) × (self.new ≡ after_see self.old view)) }
        ensures err { OnErr result (self.new ≡ self.old) }
    {
        let count = self.log.len() as u64;
        self.views[view as usize].see(count)?;
        Ok(count)
    }

    /// The editor marks the place for the entry, which is pending from then on.
    pub fn mark(&mut self, entry: E, place: u32) -> Result<(), Memory>
        requires { place < length self.old.places }
        ensures ok { OnOk result (self.new ≡ after_mark self.old entry place) }
        ensures err { OnErr result (self.new ≡ self.old) }
    {
        self.marked.push(place)?;
        self.pending = Some(entry);
        self.places[place as usize].mark = self.log.len() as u64 + 1;
        Ok(())
    }

    /// The editor commits the entry. That the count of commits is at the end of its numbers counts as
    /// want of memory.
    pub fn commit(&mut self, entry: E) -> Result<u64, Memory>
        requires { 0 < length self.old.views }
        ensures ok { IfOk result
            (λ count. (count ≡ length self.old.edits.log + 1)
            × (self.new ≡ after_commit self.old 0 entry)) }
        ensures err { OnErr result (self.new ≡ self.old) }
    {
        if self.log.len() as u64 >= u64::MAX - 1 {
            return Err(Memory);
        }
        self.log.push(entry)?;
        self.pending = None;
        self.marked.clear();
        let count = self.log.len();
        self.views[0].commit(count);
        Ok(count as u64)
    }
}
