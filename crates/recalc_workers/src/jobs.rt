ghost use Rattle.std.specs.Prelude.{◌≡◌, true, false, All, IsTrue, IsFalse};
ghost use Rattle.std.specs.Prelude.{IfOk, OnOk, OnErr, IfErr, IfSome, IfNone};
ghost use Rattle.sheet_refs.specs.Sizes.{is_inside};
ghost use Rattle.recalc_workers.specs.Rule.{FitsSheet};
ghost use Rattle.recalc_workers.specs.Hands.{sizes_of, is_sole, IsHandOf, IsNewHand};
ghost use Rattle.recalc_workers.specs.Hands.{HasPut, HasRefused, HasTaken, HasFoundFull, HasFoundNone};
ghost use Rattle.recalc_workers.specs.Hands.{HasSameLists};
ghost use Rattle.recalc_workers.specs.Offers.{AreOffered};

use crate::hands::{Hand, Jobs};
use crate::job::Job;
use crate::notes::{note, note_rest, note_slot};
use crate::rules::{Further, JobQueue, Learns, Puts, Queued, Takes};
use sheet_refs::{Cell, Memory, Sizes};
use std::alloc::Global;
use std::sync::Wait;

/// The most jobs that wait at once.
const ROOM: usize = 65_536;

/// The tries of a new job.
const TRIES: u8 = 16;

impl Jobs {
    /// An empty queue for the jobs of a sheet of these sizes, and its one hand.
    pub fn new(alloc: Global, rows: u32, cols: u32) -> Result<(Jobs, Hand), Memory>
        ensures sizes { IfOk result
            (λ r. ((sizes_of r.0).rows ≡ rows) × ((sizes_of r.0).cols ≡ cols)) }
        ensures hand { IfOk result (λ r. IsHandOf r.0 r.1 × IsNewHand r.1) }
        ensures sole { IfOk result (λ r. is_sole r.1 ≡ true) }
    {
        let sizes = Sizes { rows, cols };
        let cell = Cell::new(1, 1).unwrap();
        let first = Queued {
            job: Job { cell, tries: 0 },
            sizes,
        };
        let (slot, note) = note_slot(alloc)?;
        let (queue, mut pass) = JobQueue::ruled(alloc, ROOM)?;
        // No other thread has the queue yet, so these two don't fail.
        let Ok(()) = queue.try_push_as::<Puts>(&mut pass, first) else {
            return Err(Memory);
        };
        let Some(_) = queue.try_pop_as::<Learns>(&mut pass) else {
            return Err(Memory);
        };
        Ok((Jobs { sizes, queue }, Hand { pass, slot, note }))
    }

    /// The rows of the sheet.
    pub fn rows(&self) -> u32
        ensures { result ≡ (sizes_of self.now).rows }
    {
        self.sizes.rows
    }

    /// The columns of the sheet.
    pub fn cols(&self) -> u32
        ensures { result ≡ (sizes_of self.now).cols }
    {
        self.sizes.cols
    }

    /// A further hand, with empty lists. Neither is an only one from then on. After `Memory` all is as before.
    pub fn hand(&self, alloc: Global, hand: &mut Hand) -> Result<Hand, Memory>
        requires { IsHandOf self.now hand.old }
        ensures hand { IsHandOf self.now hand.new }
        ensures same { HasSameLists hand.old hand.new }
        ensures sole { OnOk result (is_sole hand.new ≡ false) }
        ensures refused { OnErr result (hand.new ≡ hand.old) }
        ensures further { IfOk result
            (λ other. IsHandOf self.now other × IsNewHand other × (is_sole other ≡ false)) }
    {
        let (slot, note) = note_slot(alloc)?;
        let pass = self.queue.another::<Further>(&mut hand.pass);
        Ok(Hand { pass, slot, note })
    }

    // Puts the job at the end of the queue. False only where the queue held 65,536 jobs at a step of this call;
    // nothing is noted then.
    fn put<R: Wait>(&self, rt: &R, hand: &mut Hand, job: Job) -> bool
        requires hand { IsHandOf self.now hand.old }
        requires fits { FitsSheet (sizes_of self.now) job }
        ensures hand { IsHandOf self.now hand.new × (is_sole hand.new ≡ is_sole hand.old) }
        ensures put { IsTrue result → HasPut hand.old hand.new job }
        ensures full { IsFalse result → HasFoundFull (sizes_of self.now) hand.old hand.new }
    {
        let entry = Queued {
            job,
            sizes: self.sizes,
        };
        match self.queue.push_as::<Puts, R>(rt, &mut hand.pass, entry) {
            Ok(()) => true,
            Err(_) => false,
        }
    }

    /// Puts the job at the end of the queue. Err, with the job, only where the queue held 65,536 jobs at a step of this
    /// call.
    pub fn offer<R: Wait>(&self, rt: &R, hand: &mut Hand, job: Job) -> Result<(), Job>
        requires hand { IsHandOf self.now hand.old }
        requires fits { FitsSheet (sizes_of self.now) job }
        ensures hand { IsHandOf self.now hand.new × (is_sole hand.new ≡ is_sole hand.old) }
        ensures put { OnOk result (HasPut hand.old hand.new job) }
        ensures refused { IfErr result
            (λ back. (back ≡ job) × HasRefused (sizes_of self.now) hand.old hand.new job) }
    {
        if self.put(rt, hand, job) {
            Ok(())
        } else {
            note(rt, &hand.slot, &mut hand.note, &job);
            Err(job)
        }
    }

    /// Offers a job of 16 tries for each of the cells, in order. Once a job finds the queue full, it and all that are
    /// left are refused by that step of the queue, at a cost that doesn't grow with their number.
    pub fn offer_each<R: Wait>(&self, rt: &R, hand: &mut Hand, cells: Vec<Cell>)
        requires hand { IsHandOf self.now hand.old }
        requires inside { All (λ cell. IsTrue (is_inside (sizes_of self.now) cell)) cells.items }
        ensures hand { IsHandOf self.now hand.new × (is_sole hand.new ≡ is_sole hand.old) }
        ensures offered { AreOffered (sizes_of self.now) hand.old cells.items hand.new }
    {
        for place in 0..cells.len() {
            let job = Job {
                cell: cells[place],
                tries: TRIES,
            };
            if !self.put(rt, hand, job) {
                note_rest(rt, &hand.slot, &mut hand.note, cells, place);
                return;
            }
        }
    }

    /// Takes the job at the front of the queue. None only where the queue was empty at a step of this call.
    pub fn take<R: Wait>(&self, rt: &R, hand: &mut Hand) -> Option<Job>
        requires { IsHandOf self.now hand.old }
        ensures hand { IsHandOf self.now hand.new × (is_sole hand.new ≡ is_sole hand.old) }
        ensures taken { IfSome result (λ job. HasTaken (sizes_of self.now) hand.old hand.new job) }
        ensures none { IfNone result (HasFoundNone (sizes_of self.now) hand.old hand.new) }
    {
        let entry = self.queue.pop_as::<Takes, R>(rt, &mut hand.pass)?;
        Some(entry.job)
    }
}
