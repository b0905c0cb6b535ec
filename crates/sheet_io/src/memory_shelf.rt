// A shelf whose texts stand in memory.
ghost use Rattle.std.specs.Prelude.{◌≡◌, ◌<◌, ◌≤◌, ◌↔◌, OnErr, IsErrOf};
ghost use Rattle.sheet_io.specs.Faults.{Rose};
ghost use Rattle.sheet_io.specs.Counts.{next_call, next_fault};
ghost use Rattle.sheet_io.specs.Shelf.{Fetches};
ghost use Rattle.sheet_io.specs.MemoryShelf.{memory_holds, fetches_to_fail, fetch_calls};
ghost use Rattle.sheet_io.specs.MemoryShelf.{fetch_faults, FetchFails, HoldsTooMuch};
ghost use Rattle.sheet_io.specs.Texts.{text_under};
ghost use Rattle.sheet_io.specs.declared.refusals.Fetch.TheVariants.{Failed, TooLong};

use crate::counts::Counts;
use crate::texts::find_text;
use crate::{Fetch, Shelf};

/// Texts in memory, and a list of the fetches that are to fail.
///
/// A fetch fails exactly where its number is listed or its name stands nowhere; each time the faults rise.
/// After a refusal the caller's vector is as it was. A call past the 4,294,967,295th counts under that number.
#[derive(Debug, Drop)]
pub struct MemoryShelf {
    texts: Vec<(String, Vec<u8>)>,
    fail: Vec<u32>,
    counts: Counts,
}

impl MemoryShelf {
    /// A shelf with these names and texts, of which the calls with the numbers in `fail`, from 1, are to
    /// fail. Where a name stands twice, the first place counts.
    pub fn new(texts: Vec<(String, Vec<u8>)>, fail: Vec<u32>) -> Self
        ensures held { memory_holds result ≡ text_under texts.items }
        ensures fail { fetches_to_fail result ≡ fail.items }
        ensures calls { fetch_calls result ≡ 0 }
        ensures faults { fetch_faults result ≡ 0 }
    {
        MemoryShelf {
            texts,
            fail,
            counts: Counts::new(),
        }
    }

    // Counts a fault, and answers it.
    fn refuse(&mut self) -> Fetch
        ensures answer { result ≡ Failed }
        ensures held { memory_holds self.new ≡ memory_holds self.old }
        ensures fail { fetches_to_fail self.new ≡ fetches_to_fail self.old }
        ensures calls { fetch_calls self.new ≡ fetch_calls self.old }
        ensures faults { fetch_faults self.new ≡ next_fault (fetch_faults self.old) }
        ensures counted { fetch_faults self.old ≤ fetch_faults self.new }
    {
        self.counts.raise();
        Fetch::Failed
    }
}

impl Shelf for MemoryShelf {
    ghost holds = { memory_holds };

    ghost faults = { fetch_faults };

    /// Looks at each number of the list, and then at the names one after the other.
    fn fetch(&mut self, name: &str, limit: usize, into: &mut Vec<u8>) -> Result<(), Fetch>
        ensures fetched { Fetches
            (memory_holds self.old name.now) limit into.old.items into.new.items result }
        ensures held { memory_holds self.new ≡ memory_holds self.old }
        ensures counted { fetch_faults self.old ≤ fetch_faults self.new }
        ensures cause { IsErrOf result Failed
            → Rose (fetch_faults self.old) (fetch_faults self.new) }

        // Each answer but `Memory` has its cause both ways.
        ensures fails { IsErrOf result Failed ↔ FetchFails self.old name.now }
        ensures too_long { IsErrOf result TooLong ↔ HoldsTooMuch self.old name.now limit }

        ensures refused { OnErr result (into.new.items ≡ into.old.items) }

        ensures fail { fetches_to_fail self.new ≡ fetches_to_fail self.old }
        ensures calls { fetch_calls self.new ≡ next_call (fetch_calls self.old) }
        ensures rises { IsErrOf result Failed
            → fetch_faults self.new ≡ next_fault (fetch_faults self.old) }
        ensures stays { ¬ IsErrOf result Failed → fetch_faults self.new ≡ fetch_faults self.old }
    {
        let call = self.counts.begin();
        if self.fail.contains(&call) {
            return Err(self.refuse());
        }
        let Some(text) = find_text(&self.texts, name) else {
            return Err(self.refuse());
        };
        if text.len() > limit {
            return Err(Fetch::TooLong);
        }
        into.extend_from_slice(text)?;
        Ok(())
    }
}
