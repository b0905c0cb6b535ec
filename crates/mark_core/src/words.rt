#![tactic(auto)]

ghost use Rattle.std.specs.Prelude.{◌≡◌, ◌+◌, ◌↔◌, IsTrue, Some, codes};

use std::alloc::{AllocError, AllocFailed, Allocator};
use std::error::Error;
use std::fmt;

/// Want of memory, which any call that allocates may answer. What stands after it is said by the call.
#[derive(Clone, Copy, Debug, PartialEq, Eq)]
pub struct Memory;

impl fmt::Display for Memory {
    ghost output = { λ _. Some (codes "out of memory") };

    fn fmt<W: fmt::Write>(&self, f: &mut fmt::Formatter<W>) -> fmt::Result {
        write!(f, "out of memory")
    }
}

impl Error for Memory {}

impl From<AllocError> for Memory {
    fn from(_error: AllocError) -> Self {
        Memory
    }
}

impl<T: Drop> From<AllocFailed<T>> for Memory {
    fn from(_error: AllocFailed<T>) -> Self {
        Memory
    }
}

/// The clean word of a place. `upto` is 0 where no value was computed, and s + 1 where the value was
/// computed for mark s; `held` is set while a worker has claimed the place.
#[derive(Clone, Copy, Debug, PartialEq, Eq)]
pub struct Clean {
    pub upto: u64,
    pub held: bool,
}

impl Clean {
    /// Whether the value was computed for this mark.
    pub fn is_for(&self, mark: u64) -> bool
        ensures { IsTrue result ↔ (self.now.upto ≡ mark + 1) }
    {
        self.upto > mark && self.upto - mark == 1
    }
}

/// The three words of a place: the number of the last edit that marked it (0 for the load), its clean
/// word, and its value as a code.
#[derive(Clone, Copy, Debug, PartialEq, Eq)]
pub struct Place {
    pub mark: u64,
    pub clean: Clean,
    pub value: u64,
}

/// A place with a mark for which its value is known to have been computed.
#[derive(Clone, Copy, Debug, PartialEq, Eq)]
pub struct Known {
    pub place: u32,
    pub mark: u64,
}

/// A read that has begun: the clean word was loaded, and the value too where `word` is there. `floor`
/// is one more than the greatest mark that the view knew for the place as the read began, and 0 where
/// it knew none.
#[derive(Clone, Copy, Debug, PartialEq, Eq)]
pub struct Half {
    pub place: u32,
    pub clean: Clean,
    pub floor: u64,
    pub word: Option<u64>,
}

/// A read that has ended with the load of the mark. `number` is the count of commits that the view had
/// seen by then.
#[derive(Clone, Copy, Debug, PartialEq, Eq)]
pub struct Finished {
    pub number: u64,
    pub place: u32,
    pub clean: Clean,
    pub word: Option<u64>,
    pub mark: u64,
    pub floor: u64,
}

/// A place that a view has claimed, with the word that it put there, if any.
#[derive(Clone, Copy, Debug, PartialEq, Eq)]
pub struct Held {
    pub place: u32,
    pub word: Option<u64>,
}

/// A claim that was refused: the place, and the clean word that was found there.
#[derive(Clone, Copy, Debug, PartialEq, Eq)]
pub struct Lost {
    pub place: u32,
    pub found: Clean,
}
