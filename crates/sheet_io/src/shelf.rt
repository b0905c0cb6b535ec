// A place that texts are read from, by their names.
ghost use Rattle.std.specs.Prelude.{◌≡◌, ◌≤◌, List, ℕ, IsErrOf};
ghost use Rattle.std.specs.declared.option.Option.{Option};
ghost use Rattle.sheet_io.specs.Faults.{Rose};
ghost use Rattle.sheet_io.specs.Shelf.{Fetches};
ghost use Rattle.sheet_io.specs.declared.refusals.Fetch.TheVariants.{Failed};

use crate::Fetch;

/// Texts under names. No call changes what is held.
pub trait Shelf {
    /// The text that stands under a name. None where the shelf has no such name or doesn't tell.
    ghost holds: { Self → List ℕ → Option (List ℕ) };

    /// The number of faults so far.
    ghost faults: { Self → ℕ };

    /// Appends the whole text under `name` to `into`, unless it has more than `limit` bytes. After a refusal
    /// `into` begins with what it held.
    ///
    /// `Failed` comes only where the faults rose in this call. Where the shelf tells the text, `TooLong`
    /// comes exactly where it has more than `limit` bytes, unless `Failed` or `Memory` came first.
    fn fetch(&mut self, name: &str, limit: usize, into: &mut Vec<u8>) -> Result<(), Fetch>
        ensures fetched { Fetches
            (holds self.old name.now) limit into.old.items into.new.items result }
        ensures held { holds self.new ≡ holds self.old }
        ensures counted { faults self.old ≤ faults self.new }
        ensures cause { IsErrOf result Failed → Rose (faults self.old) (faults self.new) };
}
