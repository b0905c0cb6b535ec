ghost use Rattle.std.specs.Prelude.{◌≡◌, ◌++◌, ◌∷◌, [], IfOk, drop, map};
ghost use Rattle.crossbeam_queue.specs.Passes.{view, IsPassOf};
ghost use Rattle.recalc_workers.specs.Noted.{new_job};

use crate::job::Job;
use crate::refused_jobs::RefusedJobs;
use crossbeam_queue::protocol::{Outcome, Protocol};
use crossbeam_queue::{Pass, RuledArrayQueue};
use sheet_refs::{Cell, Memory};
use std::alloc::Global;
use std::collections::LinkedList;
use std::sync::Wait;

// In a clause a `LinkedList` is a list. No value of it is made.
pub(crate) type Noted = LinkedList<Job>;

/// The rule of a hand's own slot, which asks nothing: only its hand notes there.
pub struct NoteRule;

impl Protocol<RefusedJobs, Noted> for NoteRule {
    ghost use Rattle.std.specs.Prelude.{⊤, []};

    ghost holds = { λ items views. ⊤ };

    ghost first = { [] };
}

/// Refused jobs are noted.
pub(crate) struct Notes;

impl Outcome<RefusedJobs, Noted> for Notes {
    ghost use Rattle.std.specs.Prelude.{◌≡◌, ◌++◌};
    ghost use Rattle.recalc_workers.specs.Noted.{refused_together};

    ghost then = { λ v x w. w ≡ v ++ refused_together x };
}

/// What was noted before leaves the slot.
pub(crate) struct Leaves;

impl Outcome<RefusedJobs, Noted> for Leaves {
    ghost use Rattle.std.specs.Prelude.{◌≡◌};

    ghost then = { λ v x w. w ≡ v };
}

/// A slot of one place, through which a hand notes the jobs that it was refused: a queue tells nothing to whom it
/// refuses.
pub(crate) type NoteSlot = RuledArrayQueue<RefusedJobs, Noted, NoteRule>;

/// The token to note in a slot.
pub(crate) type NotePass = Pass<RefusedJobs, Noted>;

/// A slot, and the token to note there.
pub(crate) fn note_slot(alloc: Global) -> Result<(NoteSlot, NotePass), Memory>
    ensures { IfOk result (λ r. IsPassOf r.0 r.1 × (view r.1 ≡ [])) }
{
    Ok(NoteSlot::ruled(alloc, 1)?)
}

/// Notes one job more.
pub(crate) fn note<R: Wait>(rt: &R, slot: &NoteSlot, pass: &mut NotePass, job: &Job)
    requires { IsPassOf slot.now pass.old }
    ensures same { IsPassOf slot.now pass.new }
    ensures noted { view pass.new ≡ view pass.old ++ job.now ∷ [] }
{
    let _ = slot.force_push_as::<Notes, Leaves, R>(rt, pass, RefusedJobs::One(*job));
}

/// Notes a new job for each cell of a list from a place on, all by one push. The list is let go then.
pub(crate) fn note_rest<R: Wait>(
    rt: &R,
    slot: &NoteSlot,
    pass: &mut NotePass,
    cells: Vec<Cell>,
    from: usize,
)
    requires { IsPassOf slot.now pass.old }
    ensures same { IsPassOf slot.now pass.new }
    ensures noted { view pass.new ≡ view pass.old ++ map new_job (drop from cells.items) }
{
    let _ = slot.force_push_as::<Notes, Leaves, R>(rt, pass, RefusedJobs::Rest { cells, from });
    let _ = slot.try_pop_as::<Leaves>(pass);
}
