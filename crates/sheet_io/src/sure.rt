// A shelf and a sink that never fail.
ghost use Rattle.std.specs.Prelude.{◌≡◌, None};
ghost use Rattle.sheet_io.specs.Sure.{sure_holds, sure_texts};

use crate::texts::find_text;
use crate::{Failed, Fetch, Shelf, Sink};

/// Texts in memory, which are always there: a name that stands nowhere has the empty text.
#[derive(Debug, Drop)]
pub struct SureShelf {
    texts: Vec<(String, Vec<u8>)>,
}

impl SureShelf {
    /// A shelf with these names and texts. Where a name stands twice, the first place counts.
    pub fn new(texts: Vec<(String, Vec<u8>)>) -> Self
        ensures { sure_texts result ≡ texts.items }
    {
        SureShelf { texts }
    }
}

impl Shelf for SureShelf {
    ghost holds = { sure_holds };

    ghost faults = { λ _. 0 };

    /// Looks at the names one after the other.
    fn fetch(&mut self, name: &str, limit: usize, into: &mut Vec<u8>) -> Result<(), Fetch> {
        let text = find_text(&self.texts, name).unwrap_or(&[]);
        if text.len() > limit {
            return Err(Fetch::TooLong);
        }
        into.extend_from_slice(text)?;
        Ok(())
    }
}

/// Drops what it takes, tells nothing and never fails.
#[derive(Debug, Drop)]
pub struct SureSink;

impl SureSink {
    /// A sink without faults.
    pub fn new() -> Self
        ensures { result ≡ record {} }
    {
        SureSink
    }
}

impl Sink for SureSink {
    ghost written = { λ _. None };

    ghost faults = { λ _. 0 };

    fn put(&mut self, _bytes: &[u8]) -> Result<(), Failed> {
        Ok(())
    }
}
