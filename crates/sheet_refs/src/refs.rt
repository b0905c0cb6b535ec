ghost use Rattle.std.specs.Prelude.{◌≡◌, List, IfOk};

use crate::memory::Memory;
use crate::range::Range;
use std::alloc::Global;
use std::marker::Model;

/// The most references of a formula, counted as they are written.
pub const MAX_REFERENCES: usize = 255;

/// The ranges that a formula refers to: a list of at most 255 distinct ranges.
#[derive(Debug, Drop)]
pub struct Refs {
    ranges: Vec<Range>,
}

impl Model for Refs {
    ghost use Rattle.std.specs.Prelude.{List};
    ghost use Rattle.sheet_refs.specs.Cells.{Corners};
    ghost use Rattle.sheet_refs.specs.Refs.{AreRefs};

    ghost Value = { List Corners };

    ghost view = { λ r. r.ranges.items };

    ghost invariant = { λ r. AreRefs r.ranges.items };
}

impl Refs {
    ghost use Rattle.sheet_refs.specs.Refs.{AreRefs};

    /// These ranges in this order; the empty list is allowed.
    pub fn of(alloc: Global, ranges: &[Range]) -> Result<Refs, Memory>
        requires { AreRefs ranges.now }
        ensures { IfOk result (λ refs. refs ≡ ranges.now) }
    {
        let ranges = Vec::from_slice(alloc, ranges)?;
        Ok(Refs { ranges })
    }

    /// The ranges of a list, which it takes over as it is.
    pub fn from_vec(ranges: Vec<Range>) -> Refs
        requires { AreRefs ranges.items }
        ensures { result ≡ ranges.items }
    {
        Refs { ranges }
    }

    /// The ranges, in their order.
    pub fn ranges(&self) -> &[Range]
        ensures ranges { result.now ≡ self.now }
        ensures distinct_and_few { AreRefs self.now }
    {
        &self.ranges
    }
}
