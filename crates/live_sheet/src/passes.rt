ghost use Rattle.std.specs.Prelude.{◌≡◌, ◌≤◌, ◌<◌, ◌+◌, length, IfOk};
ghost use Rattle.recalc_workers.specs.Hands.{IsNewHand};
ghost use Rattle.live_sheet.specs.Held.{IsFreeSeat, IsHandIn};
ghost use Rattle.live_sheet.specs.Opened.{IsNewPass, IsNewSeat, AreNewPasses};
ghost use Rattle.live_sheet.specs.Starts.{IsStart};

use crate::crossing::{entries_cross, subject_crosses};
use crate::naming::Naming;
use crate::pass::Pass;
use edit_log::OverSheet;
use mark_words::{Marks, Seat};
use recalc_workers::{Hand, Jobs};
use sheet_refs::Memory;
use std::alloc::Global;
use std::sync::ledger::Share;

/// The pass of a client that has done nothing.
fn new_pass<N: Naming>(
    alloc: Global,
    client: u32,
    seat: Seat<OverSheet>,
    hand: Hand,
    share: Share<N>,
) -> Pass<N>
    requires named { client < N.clients }
    requires seat { IsFreeSeat N.words N.opening seat }
    requires new_seat { IsNewSeat seat }
    requires hand { IsHandIn N.queue N.opening.sizes hand }
    requires new_hand { IsNewHand hand }
    requires part { share.parts ≡ 1 }
    requires amount { share.amount ≡ 0 }
    ensures { IsNewPass client result }
{
    Pass {
        client,
        seat,
        hand,
        share,
        numbers: Vec::new(alloc),
    }
}

/// One more pass.
fn push_pass<N: Naming>(
    alloc: Global,
    marks: &Marks<OverSheet>,
    editor: &mut Seat<OverSheet>,
    jobs: &Jobs,
    hand: &mut Hand,
    share: Share<N>,
    passes: &mut Vec<Pass<N>>,
) -> Result<(), Memory>
    requires start { IsStart N.words N.queue N.opening marks.now editor.old jobs.now hand.old }
    requires named { length passes.old.items < N.clients }
    requires small { length passes.old.items < 32 }
    requires part { share.parts ≡ 1 }
    requires amount { share.amount ≡ 0 }
    requires passes { AreNewPasses (length passes.old.items) passes.old.items }
    ensures start { IsStart N.words N.queue N.opening marks.now editor.new jobs.now hand.new }
    ensures passes { IfOk result
        (λ _. AreNewPasses (length passes.old.items + 1) passes.new.items) }
{
    subject_crosses();
    entries_cross();
    let seat = marks.split(editor);
    let own = jobs.hand(alloc, hand)?;
    let client = passes.len() as u32;
    passes.push(new_pass(alloc, client, seat, own, share))?;
    Ok(())
}

/// A pass for each client, each with one part of the share.
pub(crate) fn new_passes<N: Naming>(
    alloc: Global,
    marks: &Marks<OverSheet>,
    editor: &mut Seat<OverSheet>,
    jobs: &Jobs,
    hand: &mut Hand,
    share: &mut Share<N>,
    clients: u32,
) -> Result<Vec<Pass<N>>, Memory>
    requires start { IsStart N.words N.queue N.opening marks.now editor.old jobs.now hand.old }
    requires clients { clients ≡ N.clients }
    requires few { clients ≤ 32 }
    requires parts { share.old.parts ≡ clients + 1 }
    requires amount { share.old.amount ≡ 0 }
    ensures start { IsStart N.words N.queue N.opening marks.now editor.new jobs.now hand.new }
    ensures passes { IfOk result (λ passes. AreNewPasses clients passes.items) }
    ensures part { IfOk result (λ _. share.new.parts ≡ 1) }
    ensures none { IfOk result (λ _. share.new.amount ≡ 0) }
{
    let mut passes = Vec::new(alloc);
    for _ in 0..clients {
        let own = share.split_off(1, 0);
        push_pass(alloc, marks, editor, jobs, hand, own, &mut passes)?;
    }
    Ok(passes)
}
