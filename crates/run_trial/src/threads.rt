use crate::gates::{InTurn, UntilClaimed, UntilTwo};
use crate::script::{TWO_FORMULAS, printed};
use sheet_refs::cell_of;
use std::alloc::Global;
use std::fmt::Write;
use std::sync::Wait;
use std::sync::atomic::{AtomicU64, Ordering};
use std::test::Fail;
use std::thread::Threads;

// One worker computes A1 and claims B1 before the client looks.
#[test]
fn a_worker_computes_what_an_edit_marked(rt: HostRuntime) -> Result<(), Fail> {
    let alloc = rt.alloc();
    let gate = UntilClaimed {
        client: 0,
        number: 2,
        cell: cell_of(b"B1").ok_or("no cell")?,
        claims: AtomicU64::new(0),
        late: AtomicU64::new(0),
    };
    let script = "client ann\nset A1 5\nlook A1\n";
    let text = printed(&rt, alloc, TWO_FORMULAS, script, 1, &gate)?;
    let wanted = "log 1\n1 ann set A1 5\nclient ann\nlook 1 A1:A1\n5\nsheet 1 A1:B2\n5,6\n2,8\n";
    assert_eq!(rt;
        (text.as_str(), gate.late.load(Ordering::SeqCst)),
        (wanted, 0)
    );
    Ok(())
}

// Each client's edit is in the log where it was made, and is covered by the other's looks after it. A run that took one
// client after the other would come to the limit of a hold.
#[test]
fn a_look_covers_what_the_other_client_has_done(rt: HostRuntime) -> Result<(), Fail> {
    let gate = InTurn {
        first: AtomicU64::new(0),
        second: AtomicU64::new(0),
        late: AtomicU64::new(0),
    };
    let script = "client ann\nset A1 5\nfirm A1:B2\nlook A1:B2\n\
                  client bob\nset A2 7\nfirm A1:B2\nlook B1\n";
    let text = printed(&rt, rt.alloc(), TWO_FORMULAS, script, 2, &gate)?;
    let wanted = "log 2\n1 ann set A1 5\n2 bob set A2 7\n\
                  client ann\nfirm 1 A1:B2\n5,6\n2,8\nlook 2 A1:B2\n5,6\n7,13\n\
                  client bob\nfirm 2 A1:B2\n5,6\n7,13\nlook 2 B1:B1\n6\n\
                  sheet 2 A1:B2\n5,6\n7,13\n";
    assert_eq!(rt;
        (text.as_str(), gate.late.load(Ordering::SeqCst)),
        (wanted, 0)
    );
    Ok(())
}

// A script by which one client sets so many cells, one edit each, and then looks.
fn many_edits(alloc: Global, edits: u32) -> Result<String, Fail> {
    let mut text = String::new(alloc);
    for row in 1..=edits {
        write!(text, "set A{row} {row}\n")?;
    }
    text.push_str("look A1\n")?;
    Ok(text)
}

// The text of a sheet of so many rows with the number 7.
fn numbers(alloc: Global, rows: u32) -> Result<String, Fail> {
    let mut text = String::new(alloc);
    for _ in 0..rows {
        text.push_str("7\n")?;
    }
    Ok(text)
}

// What is printed of a hundred edits, each of a cell of its own, by four workers.
fn hundred_edits<R: Threads + Wait + Sync>(
    rt: &R,
    alloc: Global,
    gate: &UntilTwo,
) -> Result<String, Fail> {
    let script = many_edits(alloc, 100)?;
    let sheet = numbers(alloc, 100)?;
    printed(rt, alloc, &sheet, &script, 4, gate)
}

// Two workers are between a claim and a put at once, while the client waits.
#[test]
fn two_workers_compute_at_once(rt: HostRuntime) -> Result<(), Fail> {
    let gate = UntilTwo {
        client: 0,
        number: 101,
        claims: AtomicU64::new(0),
        late: AtomicU64::new(0),
    };
    let text = hundred_edits(&rt, rt.alloc(), &gate)?;
    let begins = text.starts_with("log 100\n1 main set A1 1\n2 main set A2 2\n");
    let ends = text.ends_with("\n98\n99\n100\n");
    assert_eq!(rt;
        (begins, ends, gate.late.load(Ordering::SeqCst)),
        (true, true, 0)
    );
    Ok(())
}
