// How the trials run the program: by a line, over texts, with sinks that stand in memory.
use recalc_workers::OpenGate;
use sheet_cli::run;
use sheet_io::{Cut, MemoryShelf, MemorySink, Shelf, SureSink};
use std::alloc::{AllocError, Global};
use std::sync::Wait;
use std::test::Fail;
use std::thread::Threads;

/// What stands in the way of a run: the calls that fail, by their numbers from 1; of number 0 there is none. A put on
/// the output that fails takes so many bytes of its piece, and a note likewise. The output has room for so many bytes.
#[derive(Clone, Copy)]
pub(crate) struct Limits {
    pub(crate) fetch: u32,
    pub(crate) put: u32,
    pub(crate) note: u32,
    pub(crate) taken: u32,
    pub(crate) room: u32,
}

/// No call fails, and there is room for a short output.
pub(crate) const FREE: Limits = Limits {
    fetch: 0,
    put: 0,
    note: 0,
    taken: 0,
    room: 1_000,
};

/// How a run has ended: its status, its output and its notes.
#[derive(Drop)]
pub(crate) struct Ended {
    pub(crate) status: u8,
    pub(crate) out: MemorySink,
    pub(crate) notes: MemorySink,
}

impl Ended {
    /// Whether a run has ended with this status, this output and these notes.
    pub(crate) fn is_so(&self, status: u8, out: &[u8], notes: &str) -> bool {
        self.status == status
            && self.out.written() == out
            && self.notes.written() == notes.as_bytes()
    }
}

// The words of a line, with a space between them.
fn words_of(alloc: Global, line: &str) -> Result<Vec<String>, AllocError> {
    let mut words = Vec::new(alloc);
    for word in line.split(' ') {
        words.push(String::from_str(alloc, word)?)?;
    }
    Ok(words)
}

/// Copies of texts, under their names.
pub(crate) fn texts_of(
    alloc: Global,
    texts: &[(&str, &[u8])],
) -> Result<Vec<(String, Vec<u8>)>, AllocError> {
    let mut copies = Vec::new(alloc);
    for (name, text) in texts {
        copies.push((String::from_str(alloc, name)?, text.to_vec(alloc)?))?;
    }
    Ok(copies)
}

/// A shelf with these texts, of which the fetch with this number is to fail.
pub(crate) fn shelf_of(
    alloc: Global,
    texts: &[(&str, &[u8])],
    fetch: u32,
) -> Result<MemoryShelf, AllocError> {
    let mut fail = Vec::new(alloc);
    fail.push(fetch)?;
    Ok(MemoryShelf::new(texts_of(alloc, texts)?, fail))
}

// A sink for so many bytes, of which one call is cut.
fn sink_of(alloc: Global, room: u32, call: u32, taken: u32) -> Result<MemorySink, Fail> {
    let mut cuts = Vec::new(alloc);
    cuts.push(Cut { call, taken })?;
    match MemorySink::cutting(alloc, room, cuts) {
        Ok(sink) => Ok(sink),
        Err(_) => Err(Fail::from("no memory")),
    }
}

/// Runs a line over a shelf, within these limits but for that of the fetches, which is the shelf's.
pub(crate) fn run_line<R: Threads + Wait + Sync, F: Shelf>(
    rt: &R,
    alloc: Global,
    line: &str,
    shelf: &mut F,
    limits: Limits,
) -> Result<Ended, Fail> {
    let words = words_of(alloc, line)?;
    let mut out = sink_of(alloc, limits.room, limits.put, limits.taken)?;
    let mut notes = sink_of(alloc, 1_000, limits.note, limits.taken)?;
    let status = run(rt, alloc, &words, shelf, &mut out, &mut notes, &OpenGate);
    Ok(Ended { status, out, notes })
}

/// The status of a line over a shelf, with sinks that never fail.
pub(crate) fn status_of<R: Threads + Wait + Sync, F: Shelf>(
    rt: &R,
    alloc: Global,
    line: &str,
    shelf: &mut F,
) -> Result<u8, Fail> {
    let words = words_of(alloc, line)?;
    let (mut out, mut notes) = (SureSink::new(), SureSink::new());
    let status = run(rt, alloc, &words, shelf, &mut out, &mut notes, &OpenGate);
    Ok(status)
}
