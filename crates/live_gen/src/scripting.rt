ghost use Rattle.std.specs.Prelude.{◌≡◌, ◌+◌, ◌<◌, ◌++◌, map, string_bytes, IfOk, OnOk};
ghost use Rattle.live_gen.specs.Draws.{draws_after};
ghost use Rattle.live_gen.specs.Generated.{client_names, drawn_edit, firm_window};
ghost use Rattle.live_gen.specs.Generated.{drawn_before, edit_steps, generated_script};

use crate::draws::Draws;
use edit_script::{Command, Script, Step};
use sheet_model::{Change, Content, Edit};
use sheet_refs::{Cell, Memory, Range};
use std::alloc::Global;
use value_core::Whole;

/// The number of clients, and of the edits that each of them makes.
const CLIENTS: u32 = 4;

const EDITS: u32 = 25;

// The names of the clients.
fn names(alloc: Global) -> Result<Vec<String>, Memory>
    ensures { IfOk result (λ names. map string_bytes names.items ≡ client_names) }
{
    let mut names = Vec::with_capacity(alloc, 4)?;
    names.push(String::from_str(alloc, "c1")?)?;
    names.push(String::from_str(alloc, "c2")?)?;
    names.push(String::from_str(alloc, "c3")?)?;
    names.push(String::from_str(alloc, "c4")?)?;
    Ok(names)
}

// The window at which each client looks in the end.
fn window() -> Range
    ensures { result ≡ firm_window }
{
    Range::of(Cell::new(1, 1).unwrap(), Cell::new(10, 7).unwrap())
}

// Draws an edit of a client.
fn draw_edit(alloc: Global, client: u32, draws: &mut Draws) -> Result<Edit, Memory>
    requires client { client < 4 }
    requires few { draws.old.made < 2000 }
    ensures edit { IfOk result (λ edit. edit ≡ drawn_edit draws.old.number draws.old.made client) }
    ensures two { draws.new ≡ draws_after draws.old.number (draws.old.made + 2) }
{
    let row = CLIENTS * draws.next(250) + client + 1;
    let drawn = draws.next(1_000);
    let cell = Cell::new(row, 1).unwrap();
    let number = Whole::new(i64::from(drawn)).unwrap();
    let content = Content::Number(number);
    Edit::one(alloc, Change { cell, content })
}

// Draws the edits of a client, as further steps.
fn draw_edits(
    alloc: Global,
    client: u32,
    draws: &mut Draws,
    steps: &mut Vec<Step>,
) -> Result<(), Memory>
    requires client { client < 4 }
    requires here { draws.old.made ≡ drawn_before client 0 }
    ensures steps { OnOk result (steps.new.items
        ≡ steps.old.items ++ edit_steps draws.old.number client 25) }
    ensures drawn { OnOk result (draws.new
        ≡ draws_after draws.old.number (drawn_before client 25)) }
{
    for _ in 0..EDITS {
        let edit = draw_edit(alloc, client, draws)?;
        steps.push(Step {
            client,
            command: Command::Put(edit),
        })?;
    }
    Ok(())
}

/// Draws the script: the edits of each client, behind which it looks firmly.
pub(crate) fn draw_script(alloc: Global, draws: &mut Draws) -> Result<Script, Memory>
    requires { draws.old.made ≡ 1000 }
    ensures { IfOk result (λ script. script ≡ generated_script draws.old.number) }
{
    let names = names(alloc)?;
    let mut steps = Vec::new(alloc);
    for client in 0..CLIENTS {
        draw_edits(alloc, client, draws, &mut steps)?;
        steps.push(Step {
            client,
            command: Command::Firm(window()),
        })?;
    }
    Ok(Script::of(names, steps))
}
