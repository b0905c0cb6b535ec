ghost use Rattle.std.specs.Prelude.{◌≡◌, ◌⊎◌, ◌<◌, ◌≤◌, ◌∷◌, ◌++◌, [], length, map};
ghost use Rattle.std.specs.Prelude.{string_bytes, slice_get, Some, Contains, MatchOption, IfOk, IfErr, OnOk};
ghost use Rattle.sheet_model.specs.Labels.{with_label};
ghost use Rattle.edit_script.specs.Progress.{brought, names_of, IsWithinLimits};
ghost use Rattle.edit_script.specs.Scripts.{with_client};
ghost use Rattle.edit_script.specs.declared.refused.ScriptRefused.TheVariants as refused;

use crate::progress::Progress;
use crate::refused::ScriptRefused;
use sheet_refs::Memory;
use std::alloc::Global;

/// The client to whom the commands before every line that names one belong.
const FIRST_CLIENT: &str = "main";

impl Progress {
    // The commands that follow belong to the client; answers the client's place.
    fn follow(&mut self, alloc: Global, name: &str) -> Result<u32, Memory>
        requires sound { IsWithinLimits self.old }
        requires room { (length (names_of self.old) < 32) ⊎ Contains (names_of self.old) name.now }
        ensures place { IfOk result (λ place. slice_get (names_of self.new) place ≡ Some name.now) }
        ensures sound { OnOk result (IsWithinLimits self.new) }
        ensures brought { OnOk result (brought self.new ≡ with_client (brought self.old) name.now) }
        ensures steps { self.new.steps ≡ self.old.steps }
        ensures batch { self.new.batch ≡ self.old.batch }
        ensures begun { self.new.begun ≡ self.old.begun }
    {
        let place = self.place(alloc, name)?;
        self.client = Some(place);
        Ok(place)
    }

    // The place of a client, who is added where there is none of the name.
    fn place(&mut self, alloc: Global, name: &str) -> Result<u32, Memory>
        requires few { length self.old.names.items ≤ 32 }
        requires room { (length (names_of self.old) < 32) ⊎ Contains (names_of self.old) name.now }
        ensures place { IfOk result (λ place. slice_get (names_of self.new) place ≡ Some name.now) }
        ensures names { OnOk result (names_of self.new ≡ with_label (names_of self.old) name.now) }
        ensures rest { self.new ≡ record self.old { names = self.new.names } }
    {
        match client_place(&self.names, name) {
            Some(place) => Ok(place),
            None => self.add_client(alloc, name),
        }
    }

    // Adds a client of a name that there isn't yet.
    fn add_client(&mut self, alloc: Global, name: &str) -> Result<u32, Memory>
        requires room { length self.old.names.items < 32 }
        ensures place { IfOk result (λ place. place ≡ length self.old.names.items) }
        ensures names { OnOk result (names_of self.new ≡ names_of self.old ++ name.now ∷ []) }
        ensures rest { self.new ≡ record self.old { names = self.new.names } }
    {
        let place = self.names.len() as u32;
        self.names.push(String::from_str(alloc, name)?)?;
        Ok(place)
    }

    /// Takes a line that names a client.
    pub(crate) fn name(&mut self, alloc: Global, name: &str) -> Result<(), ScriptRefused>
        requires sound { IsWithinLimits self.old }
        requires room { (length (names_of self.old) < 32) ⊎ Contains (names_of self.old) name.now }
        ensures refused { IfErr result (λ why. why ≡ refused.Memory) }
        ensures sound { OnOk result (IsWithinLimits self.new) }
        ensures brought { OnOk result (brought self.new ≡ with_client (brought self.old) name.now) }
        ensures steps { self.new.steps ≡ self.old.steps }
        ensures batch { self.new.batch ≡ self.old.batch }
        ensures begun { self.new.begun ≡ self.old.begun }
    {
        self.follow(alloc, name)?;
        Ok(())
    }

    /// The place of the client whose commands follow, who is there from the first one on.
    pub(crate) fn commander(&mut self, alloc: Global) -> Result<u32, Memory>
        requires sound { IsWithinLimits self.old }
        ensures place { IfOk result (λ place. slice_get (names_of self.new) place
            ≡ Some (brought self.new).client) }
        ensures sound { OnOk result (IsWithinLimits self.new) }
        ensures brought { OnOk result
            (brought self.new ≡ with_client (brought self.old) (brought self.old).client) }
        ensures steps { self.new.steps ≡ self.old.steps }
        ensures batch { self.new.batch ≡ self.old.batch }
        ensures begun { self.new.begun ≡ self.old.begun }
    {
        match self.client {
            Some(client) => Ok(client),
            None => self.follow(alloc, FIRST_CLIENT),
        }
    }
}

/// The place of a name among these.
pub(crate) fn client_place(names: &[String], name: &str) -> Option<u32>
    requires { length names.now ≤ 32 }
    ensures { MatchOption result (¬ Contains (map string_bytes names.now) name.now)
        (λ place. slice_get (map string_bytes names.now) place ≡ Some name.now) }
{
    for place in 0..names.len() {
        if names[place].as_str() == name {
            return Some(place as u32);
        }
    }
    None
}
