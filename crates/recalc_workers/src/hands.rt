ghost use Rattle.std.specs.Prelude.{◌≡◌};
ghost use Rattle.crossbeam_queue.specs.Passes.{IsPassOf, ruled_capacity};

use crate::notes::{NotePass, NoteSlot};
use crate::rules::{HandView, JobQueue, Queued};
use crossbeam_queue::Pass;
use sheet_refs::Sizes;

/// The queue of the jobs of one sheet, shared by threads. It has room for 65,536 jobs.
#[derive(Drop)]
pub struct Jobs {
    pub(crate) sizes: Sizes,
    pub(crate) queue: JobQueue,
    ghost room: { ruled_capacity queue ≡ 65536 },
}

/// The token by which jobs are offered and taken. It knows the jobs that it put, that it was refused and that it took.
#[derive(Drop)]
pub struct Hand {
    pub(crate) pass: Pass<Queued, HandView>,
    pub(crate) slot: NoteSlot,
    pub(crate) note: NotePass,
    ghost noting: { IsPassOf slot note },
}
