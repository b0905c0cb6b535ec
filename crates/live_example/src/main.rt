//! Two people share a live sheet beside a worker: `live_sheet` as a library, step by step in `docs/LIBRARY.md`.
#![tactic(auto)]

ghost use Rattle.std.specs.Prelude.{◌≡◌, IfOk};
ghost use Rattle.std.specs.Thread.{IsSync};
ghost use Rattle.live_example.specs.Windows.{IsWindow};
ghost use Rattle.live_sheet.specs.Passes.{client_of};
ghost use Rattle.live_sheet.specs.Setups.{IsNamedBy};

use csv_sheet::load;
use live_sheet::{Closed, Live, Naming, Pass, Setup, desks_cross, live_crosses, passes_cross};
use recalc_workers::OpenGate;
use sheet_model::{Board, Change, Content, Edit, Shown};
use sheet_refs::{Memory, Range, cell_of, range_of};
use std::alloc::Global;
use std::io;
use std::marker::Brand;
use std::sync::Wait;
use std::thread::{Threads, join};
use value_core::{Value, Whole, decode};

// A person sets a cell three times, and looks after each: what is shown covers the edit.
fn takes_part<N: Naming, R: Wait>(
    rt: &R,
    alloc: Global,
    live: &Live<N>,
    mut pass: Pass<N>,
    window: Range,
    name: &[u8],
) -> Result<Pass<N>, Memory>
    requires { IsWindow N.opening window }
    ensures { IfOk result (λ after. client_of after ≡ client_of pass) }
{
    let mut board = Board::new(alloc, 3)?;
    let cell = cell_of(name).ok_or(Memory)?;
    for number in [100, 200, 300] {
        let content = Content::Number(Whole::new(number).ok_or(Memory)?);
        let edit = Edit::one(alloc, Change { cell, content })?;
        let done = live.edit(rt, &mut pass, edit).map_err(|_| Memory)?;
        live.look(&mut pass, window, &mut board);
        let covered = done.number <= board.number();
        prove!(covered);
    }
    Ok(pass)
}

// Both take part while a worker works; then the second one looks firmly, and all is closed.
fn share<N: Naming + Send + Sync, R: Threads + Wait + Sync>(
    rt: &R,
    alloc: Global,
    setup: Setup,
    window: Range,
) -> Result<(Board, Closed), Memory>
    requires named { IsNamedBy N.name N.parts N.words N.queue N.opening N.clients setup }
    requires two { (N.clients ≡ 2) × IsWindow N.opening window }
{
    live_crosses::<N>();
    desks_cross::<N>();
    let mut board = Board::new(alloc, 3)?;
    let opened = Live::<N>::open(alloc, setup)?;
    let (live, mut passes, mut desks) = (opened.live, opened.passes, opened.desks);
    let bob = passes.pop().ok_or(Memory)?;
    let ann = passes.pop().ok_or(Memory)?;
    let desk = desks.pop().ok_or(Memory)?;
    let work = || {
        let mut desk = desk;
        for _ in 0..1_000 {
            live.work(rt, &mut desk, &OpenGate);
        }
    };
    let people = || -> (Result<Pass<N>, Memory>, Result<Pass<N>, Memory>)
        requires { IsSync R.row × IsWindow N.opening window }
        ensures ann { IfOk result.0 (λ after. client_of after ≡ client_of ann) }
        ensures bob { IfOk result.1 (λ after. client_of after ≡ client_of bob) }
    {
        live_crosses::<N>();
        passes_cross::<N>();
        join(
            rt,
            || takes_part(rt, alloc, &live, ann, window, b"A1"),
            || takes_part(rt, alloc, &live, bob, window, b"A2"),
        )
    };
    let ((), (ann, bob)) = join(rt, work, people);
    passes.push(ann?)?;
    passes.push(bob?)?;
    live.firm(rt, &mut passes[1], window, &mut board, &OpenGate)?;
    let closed = live.close(rt, passes, desks, &OpenGate);
    Ok((board, closed.map_err(|_| Memory)?))
}

// Opens a sheet from its text: what two people have spent, and what both have together.
fn run<R: Threads + Wait + Sync>(rt: &R, alloc: Global) -> Result<(Board, Closed), Memory> {
    let sheet = load(alloc, b"900\n400\n=A1+A2\n").map_err(|_| Memory)?;
    let column = range_of(b"A1:A3").ok_or(Memory)?;
    let window = sheet.sizes().clip(column).ok_or(Memory)?;
    (window.cells() <= 3).then_some(()).ok_or(Memory)?;
    let setup = Setup::new(alloc, sheet, 2, 1)?;
    share::<Brand, _>(rt, alloc, setup, window)
}

// Prints what no schedule changes: each person's edits, what was shown firmly, and the values at the end.
fn main(rt: HostRuntime) -> io::Result<()> {
    let (board, closed) = run(&rt, rt.alloc()).map_err(|_| io::ErrorKind::OutOfMemory)?;
    for client in 0..2 {
        for entry in closed.log.iter().filter(|entry| entry.client == client) {
            let change = &entry.edit.changes()[0];
            if let Content::Number(number) = &change.content {
                println!(rt; "client {client} sets {} to {number}", change.cell)?;
            }
        }
    }
    for (shown, code) in board.cells().iter().zip(closed.values.iter()) {
        let closing = decode(*code);
        if let (Shown::Value(Value::Number(firm)), Some(Value::Number(last))) = (shown, &closing) {
            println!(rt; "{firm} after {} edits, {last} at the end", board.number())?;
        }
    }
    Ok(())
}
