use crate::job::Job;
use crossbeam_queue::RuledArrayQueue;
use crossbeam_queue::protocol::{Lesson, Outcome, Protocol, Split};
use sheet_refs::Sizes;
use std::collections::LinkedList;

/// A job in the queue, with the sizes of the sheet. The sizes matter in the first entry alone, by which the queue
/// learns them; it is taken out before a job is offered.
#[derive(Clone, Copy, Debug, PartialEq, Eq)]
pub struct Queued {
    pub job: Job,
    pub sizes: Sizes,
}

/// What a hand knows of the queue: the sizes of the sheet, whether it is the queue's only hand, and what it put and
/// took, in order. No program makes a value.
pub struct HandView {
    pub sizes: Sizes,
    pub sole: bool,
    pub put: LinkedList<Queued>,
    pub taken: LinkedList<Queued>,
}

/// The rule of the queue: each job is one of the sheet, and what an only hand put is what it took and then what the
/// queue holds.
pub struct JobRule;

impl Protocol<Queued, HandView> for JobRule {
    ghost use Rattle.recalc_workers.specs.Rule.{HoldsJobs, first_view};

    ghost holds = { HoldsJobs };

    ghost first = { first_view };
}

/// An entry is put.
pub(crate) struct Puts;

impl Outcome<Queued, HandView> for Puts {
    ghost use Rattle.recalc_workers.specs.Rule.{PutsEntry};

    ghost then = { PutsEntry };
}

impl Lesson<Queued, HandView> for Puts {
    ghost use Rattle.recalc_workers.specs.Rule.{KnowsHeld};

    ghost fact = { KnowsHeld };
}

/// An entry is taken.
pub(crate) struct Takes;

impl Outcome<Queued, HandView> for Takes {
    ghost use Rattle.recalc_workers.specs.Rule.{TakesEntry};

    ghost then = { TakesEntry };
}

impl Lesson<Queued, HandView> for Takes {
    ghost use Rattle.recalc_workers.specs.Rule.{KnowsHeld};

    ghost fact = { KnowsHeld };
}

/// The first entry is taken out, from which the sizes of the sheet are known.
pub(crate) struct Learns;

impl Outcome<Queued, HandView> for Learns {
    ghost use Rattle.recalc_workers.specs.Rule.{LearnsSizes};

    ghost then = { LearnsSizes };
}

/// A further hand is made. No hand is the only one from then on.
pub(crate) struct Further;

impl Split<HandView> for Further {
    ghost use Rattle.recalc_workers.specs.Rule.{not_sole, further_view};

    ghost left = { not_sole };

    ghost right = { further_view };
}

/// The queue of jobs.
pub(crate) type JobQueue = RuledArrayQueue<Queued, HandView, JobRule>;
