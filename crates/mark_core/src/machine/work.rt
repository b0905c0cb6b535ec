#![tactic(auto)]

ghost use Rattle.std.specs.Prelude.{◌≡◌, ◌<◌, ◌≤◌, length, IfOk, OnOk, OnErr};
ghost use Rattle.mark_core.specs.Places.{place_at};
ghost use Rattle.mark_core.specs.States.{view_at};
ghost use Rattle.mark_core.specs.declared.events.Event.{Event};
ghost use Rattle.mark_core.specs.declared.events.Outcome.{Outcome};
ghost use Rattle.mark_core.specs.Steps.{Gives, after_claim, after_refusal, after_put, after_finish};

use crate::events::{Event, Outcome};
use crate::machine::Machine;
use crate::words::{Clean, Memory};

impl<E: Drop> Machine<E> {
    /// The clean word of the place.
    fn clean(&self, place: u32) -> Clean
        requires { place < length self.now.places }
        ensures { result ≡ (place_at self.now.places place).clean }
    {
        self.places[place as usize].clean
    }

    /// The view claims the place, which it holds where the clean word is still the one that was seen.
    /// Answers whether it does.
    pub fn claim(&mut self, view: u32, place: u32, seen: Clean) -> Result<bool, Memory>
        requires there { view < length self.old.views }
        requires place_there { place < length self.old.places }
        ensures ok { IfOk result
            (λ taken. Gives
            self.old (Event.Claim view place seen) (Outcome.Claimed taken) self.new) }
        ensures err { OnErr result (self.new ≡ self.old) }
    {
        if self.clean(place) == seen {
            self.take(view, place, seen)?;
            Ok(true)
        } else {
            self.refuse(view, place)?;
            Ok(false)
        }
    }

    /// The view holds the place, whose clean word was this one.
    fn take(&mut self, view: u32, place: u32, seen: Clean) -> Result<(), Memory>
        requires there { view < length self.old.views }
        requires place_there { place < length self.old.places }
        ensures ok { OnOk result (self.new ≡ after_claim self.old view place seen) }
        ensures err { OnErr result (self.new ≡ self.old) }
    {
        self.views[view as usize].take(place)?;
        self.places[place as usize].clean = Clean {
            upto: seen.upto,
            held: true,
        };
        Ok(())
    }

    /// The view notes the clean word that stood in the way of its claim.
    fn refuse(&mut self, view: u32, place: u32) -> Result<(), Memory>
        requires there { view < length self.old.views }
        requires place_there { place < length self.old.places }
        ensures ok { OnOk result (self.new ≡ after_refusal self.old view place) }
        ensures err { OnErr result (self.new ≡ self.old) }
    {
        let found = self.places[place as usize].clean;
        self.views[view as usize].miss(place, found)?;
        Ok(())
    }

    /// The view puts the word to a place that it holds.
    pub fn put(&mut self, view: u32, place: u32, word: u64)
        requires there { view < length self.old.views }
        requires place_there { place < length self.old.places }
        ensures { self.new ≡ after_put self.old view place word }
    {
        self.views[view as usize].put(place, word);
        self.places[place as usize].value = word;
    }

    /// The view gives the place back, as computed for the mark.
    pub fn finish(&mut self, view: u32, place: u32, mark: u64) -> Result<(), Memory>
        requires there { view < length self.old.views }
        requires place_there { place < length self.old.places }
        requires known { mark ≤ length (view_at self.old view).log }
        ensures ok { OnOk result (self.new ≡ after_finish self.old view place mark) }
        ensures err { OnErr result (self.new ≡ self.old) }
    {
        self.views[view as usize].give_back(place, mark)?;
        self.places[place as usize].clean = Clean {
            upto: mark + 1,
            held: false,
        };
        Ok(())
    }
}
