use crate::gates::{AfterLong, UntilClaimed};
use crate::script::printed;
use sheet_refs::cell_of;
use std::alloc::Global;
use std::fmt::Write;
use std::sync::Wait;
use std::sync::atomic::{AtomicU64, Ordering};
use std::test::Fail;
use std::thread::Threads;

// Holds client 0 ahead of a command until a worker has claimed the cell.
fn until_claimed(name: &[u8], number: u32) -> Result<UntilClaimed, Fail> {
    Ok(UntilClaimed {
        client: 0,
        number,
        cell: cell_of(name).ok_or("no cell")?,
        claims: AtomicU64::new(0),
        late: AtomicU64::new(0),
    })
}

// The client asks for no value: it only looks. Its second look finds what a worker computed of the formulas as loaded.
#[test]
fn loaded_formulas_are_computed_while_a_client_looks(rt: HostRuntime) -> Result<(), Fail> {
    let gate = until_claimed(b"C1", 2)?;
    let script = "client ann\nlook A1\nlook B1\n";
    let text = printed(&rt, rt.alloc(), "1,=A1+1,=B1+1\n", script, 1, &gate)?;
    let wanted = "log 0\nclient ann\nlook 0 A1:A1\n1\nlook 0 B1:B1\n2\nsheet 0 A1:C1\n1,2,3\n";
    assert_eq!(rt;
        (text.as_str(), gate.late.load(Ordering::SeqCst)),
        (wanted, 0)
    );
    Ok(())
}

// The text of a column in which each row is one more than the one below it, and the last is 1.
fn upward(alloc: Global, rows: u32) -> Result<String, Fail> {
    let mut text = String::new(alloc);
    for row in 2..=rows {
        write!(text, "=A{row}+1\n")?;
    }
    text.push_str("1\n")?;
    Ok(text)
}

// What is printed of an edit at the lower end of such a column of 300 rows, and of a look at A2.
fn edited_below<R: Threads + Wait + Sync>(
    rt: &R,
    alloc: Global,
    workers: u32,
    gate: &UntilClaimed,
) -> Result<String, Fail> {
    let sheet = upward(alloc, 300)?;
    let script = "client ann\nset A300 5\nlook A2\n";
    printed(rt, alloc, &sheet, script, workers, gate)
}

// The jobs of the upper rows are tried 16 times each, and then nobody offers them again. One worker puts A2 before it
// claims A1, since inputs come first.
#[test]
fn an_upward_chain_is_computed_in_the_background(rt: HostRuntime) -> Result<(), Fail> {
    let gate = until_claimed(b"A1", 2)?;
    let text = edited_below(&rt, rt.alloc(), 1, &gate)?;
    let begins = text.starts_with("log 1\n1 ann set A300 5\nclient ann\nlook 1 A2:A2\n303\n");
    assert_eq!(rt; (begins, gate.late.load(Ordering::SeqCst)), (true, 0));
    Ok(())
}

// A worker comes to A1 too where four are there.
#[test]
fn four_workers_compute_an_upward_chain(rt: HostRuntime) -> Result<(), Fail> {
    let gate = until_claimed(b"A1", 2)?;
    let text = edited_below(&rt, rt.alloc(), 4, &gate)?;
    let begins = text.starts_with("log 1\n1 ann set A300 5\nclient ann\nlook 1 A2:A2\n");
    assert_eq!(rt; (begins, gate.late.load(Ordering::SeqCst)), (true, 0));
    Ok(())
}

// The client takes its time ahead of its edit, far longer than workers go on looking for jobs. They are there still.
// B1 is claimed by the firm look, and then by the worker.
#[test]
fn a_look_shows_the_value_of_an_edit_after_a_long_time(rt: HostRuntime) -> Result<(), Fail> {
    let gate = AfterLong {
        claimed: until_claimed(b"B1", 3)?,
        number: 2,
    };
    let script = "client ann\nfirm A1:B1\nset A1 5\nlook A1\n";
    let text = printed(&rt, rt.alloc(), "1,=A1+1\n", script, 1, &gate)?;
    let wanted =
        "log 1\n1 ann set A1 5\nclient ann\nfirm 0 A1:B1\n1,2\nlook 1 A1:A1\n5\nsheet 1 A1:B1\n5,6\n";
    assert_eq!(rt;
        (text.as_str(), gate.claimed.late.load(Ordering::SeqCst)),
        (wanted, 0)
    );
    Ok(())
}

// The text of a column whose first cell is 1, and in which all others refer to that.
fn fan(alloc: Global, rows: u32) -> Result<String, Fail> {
    let mut text = String::from_str(alloc, "1\n")?;
    for _ in 2..=rows {
        text.push_str("=A$1\n")?;
    }
    Ok(text)
}

// The edit touches 66,000 cells, and the queue has room for the jobs of 65,536. The client looks at A1 once a worker
// has come to the last cell, which is among those without a job.
#[test]
fn cells_past_a_full_queue_are_computed(rt: HostRuntime) -> Result<(), Fail> {
    let gate = until_claimed(b"A66001", 2)?;
    let sheet = fan(rt.alloc(), 66_001)?;
    let script = "client ann\nset A1 5\nlook A1\n";
    let text = printed(&rt, rt.alloc(), &sheet, script, 4, &gate)?;
    let begins = text.starts_with("log 1\n1 ann set A1 5\nclient ann\nlook 1 A1:A1\n5\n");
    assert_eq!(rt; (begins, gate.late.load(Ordering::SeqCst)), (true, 0));
    Ok(())
}
