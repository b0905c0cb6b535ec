ghost use Rattle.std.specs.Prelude.{◌≡◌, IfOk};
ghost use Rattle.live_run.specs.Legal.{commands_by as commands_of_client};
ghost use Rattle.live_run.specs.Parts.{AreAnswerable, ArePartsOf, AreStepsAnswerable, IsPartOf};
ghost use Rattle.live_run.specs.Runs.{AreReportsFor};

use crate::boards::add_report;
use crate::part::Part;
use edit_script::{Command, Step};
use sheet_model::Report;
use sheet_refs::Memory;
use std::alloc::Global;

/// An equal command. The contents of an edit are shared.
fn copy_command(command: &Command) -> Result<Command, Memory>
    ensures { IfOk result (λ copy. copy ≡ command.now) }
{
    match command {
        Command::Put(edit) => Ok(Command::Put(edit.copy()?)),
        Command::Look(window) => Ok(Command::Look(*window)),
        Command::Firm(window) => Ok(Command::Firm(*window)),
        Command::Work(turns) => Ok(Command::Work(*turns)),
    }
}

/// The commands of a client, in order. It takes the time of all steps.
fn commands_by(alloc: Global, client: u32, steps: &[Step]) -> Result<Vec<Command>, Memory>
    ensures { IfOk result (λ commands. commands.items ≡ commands_of_client client steps.now) }
{
    let mut commands = Vec::new(alloc);
    for place in 0..steps.len() {
        let step = &steps[place];
        if step.client == client {
            commands.push(copy_command(&step.command)?)?;
        }
    }
    Ok(commands)
}

/// A report for each look of some commands, in order, with all the memory that it wants.
fn reports_for(alloc: Global, commands: &[Command]) -> Result<Vec<Report>, Memory>
    requires { AreAnswerable commands.now }
    ensures { IfOk result (λ reports. AreReportsFor commands.now reports.items) }
{
    let mut reports = Vec::new(alloc);
    for place in 0..commands.len() {
        add_report(alloc, &commands[place], &mut reports)?;
    }
    Ok(reports)
}

/// The part of a client.
fn part_of(alloc: Global, client: u32, steps: &[Step]) -> Result<Part, Memory>
    requires { AreStepsAnswerable steps.now }
    ensures { IfOk result (IsPartOf client steps.now) }
{
    let commands = commands_by(alloc, client, steps)?;
    let reports = reports_for(alloc, &commands)?;
    Ok(Part { commands, reports })
}

/// The parts of so many clients: the commands of each, in order, and a report for each of its looks, with all the
/// memory that these want. It takes the time of all steps for each client.
pub(crate) fn parts_of(alloc: Global, clients: u32, steps: &[Step]) -> Result<Vec<Part>, Memory>
    requires { AreStepsAnswerable steps.now }
    ensures { IfOk result (λ parts. ArePartsOf clients steps.now parts.items) }
{
    let mut parts = Vec::with_capacity(alloc, clients as usize)?;
    for client in 0..clients {
        parts.push(part_of(alloc, client, steps)?)?;
    }
    Ok(parts)
}
