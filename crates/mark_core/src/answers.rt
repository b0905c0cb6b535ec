#![tactic(auto)]

ghost use Rattle.mark_core.specs.Answers.{Shows};

use crate::words::Clean;

/// What a read shows of a place: its value as current, or the mark for which it has no value yet, or
/// the mark of a value that is newer than the number of the look.
#[derive(Clone, Copy, Debug, PartialEq, Eq)]
pub enum Seen {
    Value(u64),
    Stale(u64),
    Newer(u64),
}

/// What a finished read of these words shows at `number`, the count of commits that the reader has
/// seen: `Stale(mark)` where the value was not computed for this mark, else `Newer(mark)` where the
/// mark exceeds the number, else `Value(word)`.
pub fn shown(number: u64, clean: Clean, word: u64, mark: u64) -> Seen
    ensures { Shows number clean word mark result }
{
    if !clean.is_for(mark) {
        Seen::Stale(mark)
    } else if mark > number {
        Seen::Newer(mark)
    } else {
        Seen::Value(word)
    }
}
