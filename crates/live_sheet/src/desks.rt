ghost use Rattle.std.specs.Prelude.{◌≡◌, ◌<◌, length, All, IfOk};
ghost use Rattle.live_sheet.specs.Held.{IsDeskIn};
ghost use Rattle.live_sheet.specs.Opened.{IsNewDesk, IsNewSeat};
ghost use Rattle.mark_words.specs.Doing.{first_doing};
ghost use Rattle.mark_words.specs.Tokens.{IsSeatOf, doing_of, subject_of, table_of, topic_of};
ghost use Rattle.recalc_workers.specs.Hands.{IsNewHand};
ghost use Rattle.recalc_workers.specs.Desks.{seat_of, hand_of};
ghost use Rattle.live_sheet.specs.Starts.{IsStart};

use crate::crossing::{entries_cross, subject_crosses};
use crate::desk::Desk;
use crate::naming::Naming;
use crate::store::Store;
use edit_log::OverSheet;
use mark_words::{Marks, Seat};
use recalc_workers::{Desk as WorkerDesk, Hand, Jobs};
use sheet_refs::Memory;
use std::alloc::Global;
use std::marker::PhantomData;
use std::sync::Mutex;

/// A desk at which nothing was done.
fn new_desk<N: Naming>(
    alloc: Global,
    marks: &Marks<OverSheet>,
    editor: &mut Seat<OverSheet>,
    jobs: &Jobs,
    hand: &mut Hand,
) -> Result<WorkerDesk<OverSheet>, Memory>
    requires start { IsStart N.words N.queue N.opening marks.now editor.old jobs.now hand.old }
    ensures start { IsStart N.words N.queue N.opening marks.now editor.new jobs.now hand.new }
    ensures desk { IfOk result (IsDeskIn N.words N.queue N.opening N.opening.sizes) }
    ensures seat { IfOk result (λ desk. IsNewSeat (seat_of desk)) }
    ensures hand { IfOk result (λ desk. IsNewHand (hand_of desk)) }
{
    subject_crosses();
    entries_cross();
    let own = jobs.hand(alloc, hand)?;
    let seat = marks.split(editor);
    WorkerDesk::new(alloc, seat, own)
}

/// An empty store of a desk.
fn new_store<N: Naming>(
    alloc: Global,
    marks: &Marks<OverSheet>,
    editor: &mut Seat<OverSheet>,
    workers: u32,
) -> Result<Store<N>, Memory>
    requires words { table_of marks.now ≡ N.words }
    requires subject { subject_of marks.now ≡ N.opening }
    requires seat { IsSeatOf marks.now editor.old }
    requires begins { doing_of editor.old ≡ first_doing (topic_of marks.now) }
    ensures same { IsSeatOf marks.now editor.new }
    ensures kept { doing_of editor.new ≡ doing_of editor.old }
{
    subject_crosses();
    entries_cross();
    Store::new(alloc, marks.split(editor), workers)
}

/// A desk of one worker.
fn worker_desk<N: Naming>(desk: WorkerDesk<OverSheet>, store: Store<N>) -> Desk<N>
    requires belongs { IsDeskIn N.words N.queue N.opening N.opening.sizes desk }
    requires seat { IsNewSeat (seat_of desk) }
    requires hand { IsNewHand (hand_of desk) }
    ensures { IsNewDesk result }
{
    Desk {
        desk,
        store: Mutex::new(store),
        of: PhantomData,
    }
}

/// A desk for each of so many workers.
pub(crate) fn new_desks<N: Naming>(
    alloc: Global,
    marks: &Marks<OverSheet>,
    editor: &mut Seat<OverSheet>,
    jobs: &Jobs,
    hand: &mut Hand,
    workers: u32,
) -> Result<Vec<Desk<N>>, Memory>
    requires start { IsStart N.words N.queue N.opening marks.now editor.old jobs.now hand.old }
    ensures start { IsStart N.words N.queue N.opening marks.now editor.new jobs.now hand.new }
    ensures count { IfOk result (λ desks. length desks.items ≡ workers) }
    ensures new { IfOk result (λ desks. All IsNewDesk desks.items) }
{
    let mut desks = Vec::new(alloc);
    for _ in 0..workers {
        let desk = new_desk::<N>(alloc, marks, editor, jobs, hand)?;
        let store = new_store::<N>(alloc, marks, editor, workers)?;
        desks.push(worker_desk(desk, store))?;
    }
    Ok(desks)
}

/// As many desks that settle.
pub(crate) fn settling_desks<N: Naming>(
    alloc: Global,
    marks: &Marks<OverSheet>,
    editor: &mut Seat<OverSheet>,
    jobs: &Jobs,
    hand: &mut Hand,
    workers: u32,
) -> Result<Vec<WorkerDesk<OverSheet>>, Memory>
    requires start { IsStart N.words N.queue N.opening marks.now editor.old jobs.now hand.old }
    ensures start { IsStart N.words N.queue N.opening marks.now editor.new jobs.now hand.new }
    ensures count { IfOk result (λ desks. length desks.items ≡ workers) }
    ensures desks { IfOk result
        (λ desks. All (IsDeskIn N.words N.queue N.opening N.opening.sizes) desks.items) }
{
    let mut desks = Vec::new(alloc);
    for _ in 0..workers {
        desks.push(new_desk::<N>(alloc, marks, editor, jobs, hand)?)?;
    }
    Ok(desks)
}
