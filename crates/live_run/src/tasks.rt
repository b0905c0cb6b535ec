ghost use Rattle.std.specs.Prelude.{All};
ghost use Rattle.std.specs.Thread.{IsSync};
ghost use Rattle.live_run.specs.Client.{Begins};
ghost use Rattle.live_run.specs.Tasks.{AllEnd, IsEndOf};

use crate::client::{Client, run_client};
use crate::sharing::clients_cross;
use crate::watch::Watch;
use crate::workers::work_on;
use live_sheet::{Desk, Live, Naming, desks_cross, live_crosses};
use recalc_workers::Gate;
use std::sync::Wait;
use std::thread::{Threads, for_each_mut, join};

/// Runs the client's commands; then one client less is left, also where memory ran out.
fn run_and_leave<N: Naming, R: Threads + Wait + Sync, T: Gate + Sync>(
    rt: &R,
    live: &Live<N>,
    watch: &Watch,
    task: &mut Client<N>,
    gate: &T,
)
    requires { Begins N.opening task.old }
    ensures { IsEndOf N.opening task.old task.new }
{
    let commands = task.orders.len();
    run_client(rt, live, watch, gate, task);
    watch.leave(commands.saturating_sub(task.orders.len()));
}

/// Runs all clients side by side, each in a task of its own.
fn run_clients<N: Naming + Send + Sync, R: Threads + Wait + Sync, T: Gate + Sync>(
    rt: &R,
    live: &Live<N>,
    watch: &Watch,
    tasks: Vec<Client<N>>,
    gate: &T,
) -> Vec<Client<N>>
    requires { All (Begins N.opening) tasks.items }
    ensures { AllEnd N.opening tasks.items result.items }
{
    live_crosses::<N>();
    clients_cross::<N>();
    watch.begin();
    let mut tasks = tasks;
    let threads = tasks.len().max(1);
    for_each_mut(
        rt,
        &mut tasks,
        threads,
        &|_: usize, task: &mut Client<N>|
            requires { IsSync R.row × Begins N.opening task.now }
            ensures { IsEndOf N.opening task.entry.now task.exit.now }
        { run_and_leave(rt, live, watch, task, gate) },
    );
    tasks
}

/// Works at all desks side by side, at each in a task of its own.
fn work_at_desks<N: Naming + Send + Sync, R: Threads + Wait + Sync, T: Gate + Sync>(
    rt: &R,
    live: &Live<N>,
    watch: &Watch,
    desks: Vec<Desk<N>>,
    gate: &T,
) -> Vec<Desk<N>> {
    live_crosses::<N>();
    desks_cross::<N>();
    let mut desks = desks;
    let threads = desks.len().max(1);
    for_each_mut(
        rt,
        &mut desks,
        threads,
        &|number: usize, desk: &mut Desk<N>| { work_on(rt, live, watch, desk, number, gate) },
    );
    desks
}

/// Runs all clients, and works at all desks beside them, until all have come to their end.
pub(crate) fn run_all<N: Naming + Send + Sync, R: Threads + Wait + Sync, T: Gate + Sync>(
    rt: &R,
    live: &Live<N>,
    tasks: Vec<Client<N>>,
    desks: Vec<Desk<N>>,
    gate: &T,
) -> (Vec<Desk<N>>, Vec<Client<N>>)
    requires { All (Begins N.opening) tasks.items }
    ensures { AllEnd N.opening tasks.items result.1.items }
{
    live_crosses::<N>();
    desks_cross::<N>();
    let watch = Watch::new(tasks.len());
    let watch = &watch;
    join(
        rt,
        || -> Vec<Desk<N>>
            requires { IsSync R.row }
        { work_at_desks(rt, live, watch, desks, gate) },
        || -> Vec<Client<N>>
            requires { IsSync R.row × All (Begins N.opening) tasks.items }
            ensures { AllEnd N.opening tasks.items result.items }
        { run_clients(rt, live, watch, tasks, gate) },
    )
}
