// Puts that are cut short by a list.
ghost use Rattle.std.specs.Prelude.{◌≡◌};
ghost use Rattle.sheet_io.specs.Cuts.{cut_at};

/// A put that is to fail: its number among all puts, from 1, and the number of first bytes of its piece that it takes,
/// at most all of them.
#[derive(Clone, Copy, Debug, PartialEq, Eq)]
pub struct Cut {
    /// The number of the put.
    pub call: u32,
    /// How many bytes of its piece it takes at most.
    pub taken: u32,
}

/// How many bytes the put with this number takes where it is cut, by one look at each cut. The first cut of a number
/// counts.
pub(crate) fn find_cut(cuts: &[Cut], call: u32) -> Option<u32>
    ensures { result ≡ cut_at cuts.now call }
{
    for cut in cuts {
        if cut.call == call {
            return Some(cut.taken);
        }
    }
    None
}
