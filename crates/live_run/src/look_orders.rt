ghost use Rattle.std.specs.Prelude.{◌≡◌, ◌<◌, ◌≤◌, [], length, All, IfOk, vec_capacity};
ghost use Rattle.live_run.specs.Client.{IsOrderFor, commands_of};
ghost use Rattle.live_run.specs.Legal.{looks_asked};
ghost use Rattle.live_run.specs.Orders.{IsOrderOf, MayTake, TakesBoard};
ghost use Rattle.live_run.specs.Runs.{AreCommandsFor, AreReportsFor};

use crate::order::Order;
use edit_script::Command;
use live_sheet::Naming;
use sheet_model::Report;
use sheet_refs::{Memory, Range};
use std::alloc::Global;

/// An order to look, on the board of the last report, which is taken away.
fn look_order(is_firm: bool, window: Range, reports: &mut Vec<Report>) -> Order
    requires { 0 < length reports.old.items }
    ensures order { TakesBoard is_firm window result reports.old.items reports.new.items }
    ensures room { vec_capacity reports.new ≡ vec_capacity reports.old }
{
    let Some(Report { firm: _, board }) = reports.pop() else {
        unreachable!()
    };
    Order::Look {
        firm: is_firm,
        window,
        board,
    }
}

/// The order of a command.
fn order_of(command: Command, reports: &mut Vec<Report>) -> Order
    requires { MayTake command reports.old.items }
    ensures order { IsOrderOf command result reports.old.items reports.new.items }
    ensures room { vec_capacity reports.new ≡ vec_capacity reports.old }
{
    match command {
        Command::Put(edit) => Order::Put(edit),
        Command::Look(window) => look_order(false, window, reports),
        Command::Firm(window) => look_order(true, window, reports),
        Command::Work(_) => unreachable!(),
    }
}

/// The orders of commands, the last first, and the list of reports, which is empty then and has its room still.
pub(crate) fn orders_of<N: Naming>(
    alloc: Global,
    commands: Vec<Command>,
    reports: Vec<Report>,
) -> Result<(Vec<Order>, Vec<Report>), Memory>
    requires commands { AreCommandsFor N.opening commands.items }
    requires reports { AreReportsFor commands.items reports.items }
    ensures orders { IfOk result (λ r. All (IsOrderFor N.opening) r.0.items) }
    ensures asked { IfOk result (λ r. commands_of r.0.items ≡ commands.items) }
    ensures count { IfOk result (λ r. length r.0.items ≡ length commands.items) }
    ensures none { IfOk result (λ r. r.1.items ≡ []) }
    ensures room { IfOk result (λ r. length (looks_asked commands.items) ≤ vec_capacity r.1) }
{
    let mut commands = commands;
    let mut reports = reports;
    let mut orders = Vec::with_capacity(alloc, commands.len())?;
    while let Some(command) = commands.pop() {
        let order = order_of(command, &mut reports);
        orders.push(order)?;
    }
    Ok((orders, reports))
}
