ghost use Rattle.std.specs.Prelude.{◌≡◌, IsTrue};
ghost use Rattle.sheet_refs.specs.Sizes.{is_inside};
ghost use Rattle.mark_words.specs.Tokens.{IsSeatOf, subject_of};
ghost use Rattle.recalc_workers.specs.Again.{HasUsedJobs, IsOfferedAgain, comes_again as again_after};
ghost use Rattle.recalc_workers.specs.Desks.{seat_of, hand_of};
ghost use Rattle.recalc_workers.specs.Hands.{IsHandOf, is_sole, sizes_of};
ghost use Rattle.recalc_workers.specs.Offices.{words_for};
ghost use Rattle.recalc_workers.specs.Rule.{FitsSheet};
ghost use Rattle.recalc_workers.specs.Seats.{HoldsNothing, Keeps};
ghost use Rattle.recalc_workers.specs.Turns.{ComesTo, HasCause};

use crate::crossing::entries_cross;
use crate::desk::Desk;
use crate::gates::Gate;
use crate::hands::{Hand, Jobs};
use crate::job::Job;
use crate::office::Office;
use crate::turns::Turn;
use crate::working::compute;
use mark_words::Marks;
use sheet_model::SheetSubject;
use sheet_refs::{Cell, Sizes};
use std::sync::Wait;

/// Whether the cell is to be tried again after the answer.
fn comes_again(turn: &Turn) -> bool
    ensures { result ≡ again_after turn.now }
{
    match turn {
        Turn::Done(_) | Turn::Idle | Turn::Nothing(_) => false,
        Turn::Later { .. } | Turn::Stale { .. } | Turn::Busy { .. } | Turn::Memory(_) => true,
    }
}

/// Offers the job again with one try less, where the cell is to be tried again and the job has more than one.
fn offer_again<R: Wait>(rt: &R, jobs: &Jobs, hand: &mut Hand, job: Job, turn: &Turn)
    requires hand { IsHandOf jobs.now hand.old }
    requires fits { FitsSheet (sizes_of jobs.now) job }
    ensures hand { IsHandOf jobs.now hand.new × (is_sole hand.new ≡ is_sole hand.old) }
    ensures offered { IsOfferedAgain (sizes_of jobs.now) hand.old hand.new job turn.now }
{
    if job.tries <= 1 {
        return;
    }
    if !comes_again(turn) {
        return;
    }
    let next = Job {
        cell: job.cell,
        tries: job.tries - 1,
    };
    let _ = jobs.offer(rt, hand, next);
}

/// The turn of a job that was taken: sees the count, asks for the task, and computes.
fn work<S: SheetSubject, O: Office<S>, G: Gate, R: Wait>(
    rt: &R,
    desk: &mut Desk<S>,
    marks: &Marks<S>,
    sizes: Sizes,
    office: &mut O,
    gate: &G,
    cell: Cell,
) -> Turn
    requires table { IsSeatOf marks.now (seat_of desk.old) }
    requires words { O.words office.old ≡ words_for marks.now }
    requires opening { O.opening office.old ≡ S.opening (subject_of marks.now) }
    requires sizes { sizes ≡ (S.opening (subject_of marks.now)).sizes }
    requires inside { IsTrue (is_inside sizes cell) }
    ensures words { O.words office.new ≡ O.words office.old }
    ensures opening { O.opening office.new ≡ O.opening office.old }
    ensures same { IsSeatOf marks.now (seat_of desk.new) }
    ensures hand { hand_of desk.new ≡ hand_of desk.old }
    ensures comes { ComesTo (S.opening (subject_of marks.now)) (seat_of desk.old) cell
        (λ start. Unit {0}) (seat_of desk.new) result }
{
    entries_cross();
    let _ = marks.see(&mut desk.seat);
    let Ok(task) = office.job(rt, cell, &mut desk.seat) else {
        return Turn::Memory(cell);
    };
    compute(rt, desk, marks, sizes, office, gate, cell, task)
}

/// One turn of a worker: takes a job, and computes its cell if that is due. It sees the count of commits, asks the
/// office for the content and the number of entries, reads the cell and its inputs into the desk's list, evaluates over
/// that list, and only then claims, puts and finishes. It waits for nobody but the office and the queue.
///
/// Each answer but `Idle` is about the cell of the one job that was taken. A job that ends in `Later`, `Stale`, `Busy`
/// or `Memory` and has more than one try is offered again, with one try less; one that finds the queue full is dropped.
/// The seat loses nothing that it knew, and holds no place afterwards. A turn takes memory where its cell has more
/// inputs than the desk's list has room for.
pub fn turn<S: SheetSubject, O: Office<S>, G: Gate, R: Wait>(
    rt: &R,
    desk: &mut Desk<S>,
    marks: &Marks<S>,
    jobs: &Jobs,
    office: &mut O,
    gate: &G,
) -> Turn
    requires table { IsSeatOf marks.now (seat_of desk.old) }
    requires words { O.words office.old ≡ words_for marks.now }
    requires opening { O.opening office.old ≡ S.opening (subject_of marks.now) }
    requires sizes { sizes_of jobs.now ≡ (S.opening (subject_of marks.now)).sizes }
    requires hand { IsHandOf jobs.now (hand_of desk.old) }
    ensures words { O.words office.new ≡ O.words office.old }
    ensures opening { O.opening office.new ≡ O.opening office.old }
    ensures same { IsSeatOf marks.now (seat_of desk.new) }
    ensures hand { IsHandOf jobs.now (hand_of desk.new) × (is_sole (hand_of desk.new) ≡ is_sole (hand_of desk.old)) }
    ensures keeps { Keeps (seat_of desk.old) (seat_of desk.new) }
    ensures free { HoldsNothing (seat_of desk.new) }
    ensures jobs { HasUsedJobs (sizes_of jobs.now) (hand_of desk.old) (hand_of desk.new) result }
    ensures cause { HasCause (S.opening (subject_of marks.now)) (seat_of desk.old) (seat_of desk.new) result }
{
    let Some(job) = jobs.take(rt, &mut desk.hand) else {
        return Turn::Idle;
    };
    let sizes = Sizes {
        rows: jobs.rows(),
        cols: jobs.cols(),
    };
    let turn = work(rt, desk, marks, sizes, office, gate, job.cell);
    offer_again(rt, jobs, &mut desk.hand, job, &turn);
    turn
}
