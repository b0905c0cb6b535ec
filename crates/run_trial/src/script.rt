// How these trials run the program: by its words, over texts that stand in memory, with an output that has room.
use recalc_workers::Gate;
use sheet_cli::run;
use sheet_io::{MemoryShelf, MemorySink, SureSink};
use std::alloc::{AllocError, Global};
use std::sync::Wait;
use std::test::Fail;
use std::thread::Threads;

/// A sheet of two rows and columns, with two formulas.
pub(crate) const TWO_FORMULAS: &str = "1,=A1+1\n2,=A2+B1\n";

// Words that the program owns.
fn owned(alloc: Global, words: &[&str]) -> Result<Vec<String>, AllocError> {
    let mut copies = Vec::new(alloc);
    for word in words {
        copies.push(String::from_str(alloc, word)?)?;
    }
    Ok(copies)
}

// A shelf with these texts, of which no fetch fails.
fn shelf_of(alloc: Global, texts: &[(&str, &str)]) -> Result<MemoryShelf, AllocError> {
    let mut copies = Vec::new(alloc);
    for (name, text) in texts {
        let text = text.as_bytes().to_vec(alloc)?;
        copies.push((String::from_str(alloc, name)?, text))?;
    }
    Ok(MemoryShelf::new(copies, Vec::new(alloc)))
}

// A sink with room for the longest of the outputs, of which no put fails.
fn sink(alloc: Global) -> Result<MemorySink, Fail> {
    match MemorySink::new(alloc, 1_000_000, Vec::new(alloc)) {
        Ok(sink) => Ok(sink),
        Err(_) => Err(Fail::from("no memory")),
    }
}

// The output of a run that has ended so.
fn text_of(alloc: Global, status: u8, out: &MemorySink) -> Result<String, Fail> {
    if status != 0 {
        return Err(Fail::from("a run that is refused"));
    }
    let bytes = out.written().to_vec(alloc)?;
    Ok(String::from_utf8(bytes).map_err(|_| "no text")?)
}

/// What the program prints by these words, over these texts under their names.
pub(crate) fn printed_by<R: Threads + Wait + Sync, T: Gate + Sync>(
    rt: &R,
    alloc: Global,
    words: &[&str],
    texts: &[(&str, &str)],
    gate: &T,
) -> Result<String, Fail> {
    let words = owned(alloc, words)?;
    let mut shelf = shelf_of(alloc, texts)?;
    let mut out = sink(alloc)?;
    let status = run(
        rt,
        alloc,
        &words,
        &mut shelf,
        &mut out,
        &mut SureSink::new(),
        gate,
    );
    text_of(alloc, status, &out)
}

/// What the program prints of a live run of a script over a sheet, with so many workers.
pub(crate) fn printed<R: Threads + Wait + Sync, T: Gate + Sync>(
    rt: &R,
    alloc: Global,
    sheet: &str,
    script: &str,
    workers: u32,
    gate: &T,
) -> Result<String, Fail> {
    let workers = format!(in alloc; "{workers}")?;
    let words = ["live", "s", "t", "--workers", workers.as_str()];
    printed_by(rt, alloc, &words, &[("s", sheet), ("t", script)], gate)
}
