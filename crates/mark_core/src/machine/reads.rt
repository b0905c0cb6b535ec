#![tactic(auto)]

ghost use Rattle.std.specs.Prelude.{◌≡◌, ◌<◌, length, IfOk, OnErr};
ghost use Rattle.mark_core.specs.Places.{place_at};
ghost use Rattle.mark_core.specs.Steps.{after_read_clean, after_read_value, after_read_mark};

use crate::machine::Machine;
use crate::words::{Clean, Memory};

impl<E: Drop> Machine<E> {
    /// The view loads the clean word of the place, which begins a read of it.
    pub fn read_clean(&mut self, view: u32, place: u32) -> Clean
        requires there { view < length self.old.views }
        requires place_there { place < length self.old.places }
        ensures loaded { result ≡ (place_at self.old.places place).clean }
        ensures after { self.new ≡ after_read_clean self.old view place }
    {
        let clean = self.places[place as usize].clean;
        self.views[view as usize].begin(place, clean);
        clean
    }

    /// The view loads the value of the place.
    pub fn read_value(&mut self, view: u32, place: u32) -> u64
        requires there { view < length self.old.views }
        requires place_there { place < length self.old.places }
        ensures loaded { result ≡ (place_at self.old.places place).value }
        ensures after { self.new ≡ after_read_value self.old view place }
    {
        let value = self.places[place as usize].value;
        self.views[view as usize].go_on(place, value);
        value
    }

    /// The view loads the mark of the place, which ends a read of it.
    pub fn read_mark(&mut self, view: u32, place: u32) -> Result<u64, Memory>
        requires there { view < length self.old.views }
        requires place_there { place < length self.old.places }
        ensures ok { IfOk result
            (λ mark. (mark ≡ (place_at self.old.places place).mark)
            × (self.new ≡ after_read_mark self.old view place)) }
        ensures err { OnErr result (self.new ≡ self.old) }
    {
        let mark = self.places[place as usize].mark;
        self.views[view as usize].end(place, mark)?;
        Ok(mark)
    }
}
