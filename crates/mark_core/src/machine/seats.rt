#![tactic(auto)]

ghost use Rattle.std.specs.Prelude.{◌≡◌, ◌≢◌, ◌<◌, ◌-◌, ◌^◌, length, IfOk, OnOk, OnErr};
ghost use Rattle.mark_core.specs.Steps.{after_split, after_join};

use crate::machine::Machine;
use crate::views::Stored;
use crate::words::Memory;
use std::mem;

impl<E: Drop> Machine<E> {
    /// A new view comes to stand beside the others. It knows what this one does.
    pub fn split(&mut self, view: u32) -> Result<u32, Memory>
        requires there { view < length self.old.views }
        requires room { length self.old.views < 2 ^ 32 - 1 }
        ensures ok { IfOk result
            (λ seat. (seat ≡ length self.old.views) × (self.new ≡ after_split self.old view)) }
        ensures err { OnErr result (self.new ≡ self.old) }
    {
        let new = self.views[view as usize].split(self.alloc)?;
        let seat = self.views.len() as u32;
        self.views.push(new)?;
        Ok(seat)
    }

    /// The view takes over what the other one knows, and the other is spent.
    pub fn join(&mut self, view: u32, other: u32) -> Result<(), Memory>
        requires there { view < length self.old.views }
        requires other_there { other < length self.old.views }
        requires apart { view ≢ other }
        requires not_editor { other ≢ 0 }
        ensures ok { OnOk result (self.new ≡ after_join self.old view other) }
        ensures err { OnErr result (self.new ≡ self.old) }
    {
        let taken = mem::replace(
            &mut self.views[other as usize],
            Stored::new_spent(self.alloc),
        );
        match self.views[view as usize].join(&taken) {
            Ok(()) => Ok(()),
            Err(memory) => {
                self.views[other as usize] = taken;
                Err(memory)
            }
        }
    }
}
