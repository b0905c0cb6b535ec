// Indexes with the ranges of a list, each with its place as its id.
ghost use Rattle.std.specs.Prelude.{◌≡◌, ◌<◌, ◌^◌, ◌≤◌, [], OnOk, length};
ghost use Rattle.index_trial.specs.Listed.{AreListed};

use range_index::RangeIndex;
use sheet_refs::{Memory, Range};

// Inserts each range of a list, with its place as its id.
pub(crate) fn fill<I: RangeIndex>(index: &mut I, ranges: &[Range]) -> Result<(), Memory>
    requires none { I.entries index.old ≡ [] }
    requires few { length ranges.now < 2 ^ 32 }
    ensures { OnOk result (AreListed (I.entries index.new) ranges.now 0 (length ranges.now)) }
{
    index.reserve(ranges.len() as u32)?;
    for place in 0..ranges.len() {
        index.insert(place, ranges[place]);
    }
    Ok(())
}

// Takes out the first ranges of such a list.
pub(crate) fn take_first<I: RangeIndex>(index: &mut I, ranges: &[Range], end: usize)
    requires filled { AreListed (I.entries index.old) ranges.now 0 (length ranges.now) }
    requires within { end ≤ length ranges.now }
    ensures { AreListed (I.entries index.new) ranges.now end (length ranges.now) }
{
    for place in 0..end {
        index.remove(place, ranges[place]);
    }
}
