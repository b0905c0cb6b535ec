ghost use Rattle.std.specs.Prelude.{◌≡◌, ◌<◌, ◌+◌, ◌^◌};
ghost use Rattle.mark_trial.specs.TwoTestCells.{code_of, cell_code, last_or};

use mark_core::{Judge, Memory, Subject};
use std::alloc::Global;

/// The smallest subject with a formula in it, for trials of the protocol: two cells, of which each edit
/// sets the first to a number, 1 at first, and the second is one more. Every edit touches both.
#[derive(Clone, Copy, Debug)]
pub(crate) struct TwoTestCells;

impl TwoTestCells {
    /// The code of a number.
    pub(crate) fn code(number: u64) -> u64
        requires { number < 2 ^ 33 }
        ensures { result ≡ code_of number }
    {
        (number + (1 << 53)) * 8 + 1
    }
}

impl Subject for TwoTestCells {
    type Entry = u32;

    ghost places = { λ _. 2 };

    ghost worth = { λ _ log place. cell_code log place };

    ghost touches = { λ _ _ _ place. place < 2 };

    ghost untouched = { λ _ _ _ _ there spared. absurd (spared there) };
}

impl Judge for TwoTestCells {
    fn touches_now(
        &self,
        _alloc: Global,
        _log: &[u32],
        _entry: &u32,
        place: u32,
    ) -> Result<bool, Memory> {
        Ok(place < 2)
    }

    fn worth_now(&self, _alloc: Global, log: &[u32], place: u32) -> Result<u64, Memory> {
        Ok(TwoTestCells::code(u64::from(last(log)) + u64::from(place)))
    }

    fn same_now(&self, a: &u32, b: &u32) -> bool {
        *a == *b
    }
}

/// The last of the numbers, or 1.
fn last(numbers: &[u32]) -> u32
    ensures { result ≡ last_or 1 numbers.now }
{
    let mut last = 1;
    for number in numbers {
        last = *number;
    }
    last
}
