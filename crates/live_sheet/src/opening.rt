ghost use Rattle.std.specs.Prelude.{◌≡◌, ◌<◌, length, All, IfOk};
ghost use Rattle.live_sheet.specs.Opened.{AreNewPasses, IsNewDesk, OpensWith};
ghost use Rattle.live_sheet.specs.Setups.{IsNamedBy, setup_workers};

use crate::desks::{new_desks, settling_desks};
use crate::graph::LiveGraph;
use crate::live::Live;
use crate::locked::Locked;
use crate::naming::Naming;
use crate::opened::Opened;
use crate::passes::new_passes;
use crate::rest::Rest;
use crate::setup::Setup;
use edit_log::{Book, OverSheet};
use mark_words::Seat;
use recalc_workers::Desk as SettlingDesk;
use sheet_refs::Memory;
use std::alloc::Global;
use std::marker::PhantomData;
use std::sync::Mutex;
use std::sync::ledger::Book as LedgerBook;

impl<N: Naming> Live<N> {
    /// Opens a live sheet: with a new pass for each client, a new desk for each worker, and as many desks that settle.
    /// Each cell with a formula begins marked for the load and was never computed, and every other cell begins with its
    /// value; no job is offered. After `Memory` the setup is dropped.
    pub fn open(alloc: Global, setup: Setup) -> Result<Opened<N>, Memory>
        requires { IsNamedBy N.name N.parts N.words N.queue N.opening N.clients setup }
        ensures passes { IfOk result (λ opened. AreNewPasses N.clients opened.passes.items) }
        ensures desks { IfOk result
            (λ opened. length opened.desks.items ≡ setup_workers setup) }
        ensures new_desks { IfOk result (λ opened. All IsNewDesk opened.desks.items) }
        ensures words { IfOk result (λ opened. OpensWith N.opening opened.live) }
    {
        let Setup {
            marks,
            mut editor,
            jobs,
            mut hand,
            book,
            blank,
            clients,
            workers,
        } = setup;
        let (counted, mut share) = blank.open::<N>();
        let passes = new_passes::<N>(
            alloc,
            &marks,
            &mut editor,
            &jobs,
            &mut hand,
            &mut share,
            clients,
        )?;
        let desks = new_desks::<N>(alloc, &marks, &mut editor, &jobs, &mut hand, workers)?;
        let settling = settling_desks::<N>(alloc, &marks, &mut editor, &jobs, &mut hand, workers)?;
        let _ = book.length();
        let locked = Locked {
            book,
            editor,
            desks: settling,
            counted,
            rest: Rest::new(share),
        };
        let live = Live {
            marks,
            jobs,
            locked: Mutex::new(locked),
            alloc,
            of: PhantomData,
        };
        Ok(Opened {
            live,
            passes,
            desks,
        })
    }
}
