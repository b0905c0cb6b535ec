ghost use Rattle.std.specs.Prelude.{◌≡◌, ◌≤◌};
ghost use Rattle.mark_words.specs.Tokens.{table_of, subject_of, places_of};
ghost use Rattle.recalc_workers.specs.Hands.{sizes_of};
ghost use Rattle.sheet_refs.specs.Sizes.{cell_count};
ghost use Rattle.live_sheet.specs.Held.{queue_of};

use crate::locked::Locked;
use crate::naming::Naming;
use edit_log::OverSheet;
use mark_words::Marks;
use recalc_workers::Jobs;
use std::alloc::Global;
use std::marker::PhantomData;
use std::sync::Mutex;

/// A sheet that clients edit and look at while workers recalculate it. Threads share it by reference.
#[derive(Drop)]
pub struct Live<N: Naming> {
    pub(crate) marks: Marks<OverSheet>,
    pub(crate) jobs: Jobs,
    pub(crate) locked: Mutex<Locked<N>>,
    pub(crate) alloc: Global,
    pub(crate) of: PhantomData<N>,
    ghost words: { table_of marks ≡ N.words },
    ghost subject: { subject_of marks ≡ N.opening },
    ghost places: { places_of marks ≡ cell_count N.opening.sizes },
    ghost queue: { queue_of jobs ≡ N.queue },
    ghost sizes: { sizes_of jobs ≡ N.opening.sizes },
    ghost small: { cell_count N.opening.sizes ≤ 1048576 },
}
