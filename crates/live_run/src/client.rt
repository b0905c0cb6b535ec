ghost use Rattle.std.specs.Prelude.{◌≡◌, ◌<◌, ◌^◌, length, IfOk};
ghost use Rattle.live_sheet.specs.Opened.{IsNewPass};
ghost use Rattle.live_run.specs.Client.{Begins, HasEnded, IsReady, task_commands};
ghost use Rattle.live_run.specs.Runs.{AreCommandsFor, AreReportsFor};

use crate::answering::follow;
use crate::cut::Cut;
use crate::look_orders::orders_of;
use crate::order::Order;
use crate::watch::Watch;
use edit_script::Command;
use live_sheet::{Live, Naming, Pass};
use recalc_workers::Gate;
use sheet_model::Report;
use sheet_refs::Memory;
use std::alloc::Global;
use std::sync::Wait;
use std::thread::Threads;

/// One client's part of a run.
#[derive(Drop)]
pub(crate) struct Client<N: Naming> {
    /// The client, counted from 0.
    pub(crate) client: u32,
    /// Its pass.
    pub(crate) pass: Pass<N>,
    /// What it has still to do, the last first.
    pub(crate) orders: Vec<Order>,
    /// What it was shown, in the order of its looks.
    pub(crate) reports: Vec<Report>,
    /// Whether it ended early since there was no memory.
    pub(crate) failed: bool,
}

/// The task of a client, with all memory that it knows it will want. There is a report for each look of its commands,
/// in order, with room for the look's window.
pub(crate) fn ready_client<N: Naming>(
    alloc: Global,
    client: u32,
    pass: Pass<N>,
    commands: Vec<Command>,
    reports: Vec<Report>,
) -> Result<Client<N>, Memory>
    requires new { IsNewPass client pass }
    requires few { length commands.items < 2 ^ 32 }
    requires commands { AreCommandsFor N.opening commands.items }
    requires reports { AreReportsFor commands.items reports.items }
    ensures { IfOk result (IsReady N.opening client commands.items) }
{
    let (orders, reports) = orders_of::<N>(alloc, commands, reports)?;
    Ok(Client {
        client,
        pass,
        orders,
        reports,
        failed: false,
    })
}

/// Follows the client's commands, in order. The gate is told of each ahead of it. Want of memory, for an edit or a firm
/// look, ends the task. So would a full log, which the pass knows then; closing shows that no run of a script has one.
pub(crate) fn run_client<N: Naming, R: Threads + Wait + Sync, T: Gate + Sync>(
    rt: &R,
    live: &Live<N>,
    watch: &Watch,
    gate: &T,
    task: &mut Client<N>,
)
    requires { Begins N.opening task.old }
    ensures client { task.new.client ≡ task.old.client }
    ensures ended { HasEnded N.opening task.old.client (task_commands task.old) task.new }
{
    let Client {
        client,
        pass,
        orders,
        reports,
        failed,
    } = task;
    let mut number: u32 = 0;
    while let Some(order) = orders.pop() {
        number += 1;
        watch.before(number);
        gate.before(*client, number);
        match follow(rt, live, watch, gate, pass, order, reports) {
            Ok(()) => {}
            Err(Cut::Memory) => {
                *failed = true;
                return;
            }
            Err(Cut::FullLog) => return,
        }
    }
}
