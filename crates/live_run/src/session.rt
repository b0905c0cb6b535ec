ghost use Rattle.std.specs.Prelude.{◌≡◌, ◌≤◌, length, All, IfOk};
ghost use Rattle.live_sheet.specs.Opened.{AreNewPasses};
ghost use Rattle.live_sheet.specs.Setups.{IsNamedBy};
ghost use Rattle.sheet_model.specs.Sheets.{IsSheet};
ghost use Rattle.live_run.specs.Parts.{IsPartFor, edits_of};
ghost use Rattle.live_run.specs.Tasks.{AreReady, IsRunOf};

use crate::client::{Client, ready_client};
use crate::ended::Ended;
use crate::part::Part;
use crate::ran::Ran;
use crate::tasks::run_all;
use live_sheet::{Live, Naming, Opened, Pass, Setup};
use recalc_workers::Gate;
use sheet_refs::Memory;
use std::alloc::Global;
use std::sync::Wait;
use std::thread::Threads;

/// A task for each client: its pass with its part.
fn ready_clients<N: Naming>(
    alloc: Global,
    passes: Vec<Pass<N>>,
    parts: Vec<Part>,
) -> Result<Vec<Client<N>>, Memory>
    requires passes { AreNewPasses N.clients passes.items }
    requires few { N.clients ≤ 32 }
    requires count { length parts.items ≡ N.clients }
    requires parts { All (IsPartFor N.opening) parts.items }
    ensures { IfOk result (λ tasks. AreReady N.opening parts.items tasks.items) }
{
    let mut passes = passes;
    let mut parts = parts;
    let count = passes.len();
    let mut tasks = Vec::with_capacity(alloc, count)?;
    for client in 0..count {
        let pass = passes.remove(0);
        let Part { commands, reports } = parts.remove(0);
        tasks.push(ready_client(alloc, client as u32, pass, commands, reports)?)?;
    }
    Ok(tasks)
}

/// Opens a live sheet, lets all clients and workers come to their end, and closes it. All memory whose size is known is
/// taken before the first thread begins.
pub(crate) fn session<N: Naming + Send + Sync, R: Threads + Wait + Sync, T: Gate + Sync>(
    rt: &R,
    alloc: Global,
    setup: Setup,
    parts: Vec<Part>,
    gate: &T,
) -> Result<Ran, Memory>
    requires named { IsNamedBy N.name N.parts N.words N.queue N.opening N.clients setup }
    requires sheet { IsSheet N.opening }
    requires few { N.clients ≤ 32 }
    requires count { length parts.items ≡ N.clients }
    requires parts { All (IsPartFor N.opening) parts.items }
    requires edits { edits_of parts.items ≤ 1048576 }
    ensures { IfOk result (IsRunOf N.opening parts.items) }
{
    let Opened {
        live,
        passes,
        desks,
    } = Live::<N>::open(alloc, setup)?;
    let ended = Ended::new(alloc, passes.len())?;
    let tasks = ready_clients(alloc, passes, parts)?;
    let (desks, tasks) = run_all(rt, &live, tasks, desks, gate);
    let Ended { passes, reports } = ended.take_apart(tasks)?;
    match live.close(rt, passes, desks, gate) {
        Ok(closed) => Ok(Ran { closed, reports }),
        Err(_) => Err(Memory),
    }
}
