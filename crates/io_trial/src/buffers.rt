// What no clause says: how many puts a text takes, and that the first that fails is the last one.
use sheet_io::MemorySink;
use sink_buffer::SinkBuffer;
use std::alloc::{AllocError, Global};
use std::test::Fail;

// A sink with room for the texts below, of which the put with this number is to fail.
fn sink_failing_at(alloc: Global, put: u32) -> Result<MemorySink, AllocError> {
    let mut calls = Vec::new(alloc);
    calls.push(put)?;
    match MemorySink::new(alloc, 400_000, calls) {
        Ok(sink) => Ok(sink),
        Err(_) => Err(AllocError),
    }
}

// Sends pieces of a length; the answer is whether all of them and the end were put.
fn send_pieces(
    alloc: Global,
    pieces: u32,
    length: usize,
    sink: &mut MemorySink,
) -> Result<bool, AllocError> {
    let piece = vec![in alloc; b'x'; length]?;
    let Ok(mut buffer) = SinkBuffer::new(alloc) else {
        return Err(AllocError);
    };
    for _ in 0..pieces {
        if !buffer.take(&piece, sink) {
            return Ok(false);
        }
    }
    Ok(buffer.finish(sink).is_ok())
}

#[test]
fn a_text_takes_as_few_puts_as_it_may(rt: HostRuntime) -> Result<(), Fail> {
    let alloc = rt.alloc();
    for &(pieces, length, failing, whole, written) in &[
        // The put that is to fail is the one after the last, which doesn't come.
        (3, 10, 2, true, 30),
        (0, 10, 2, true, 0),
        (1, 65_536, 2, true, 65_536),
        (1, 65_537, 3, true, 65_537),
        (20, 10_000, 5, true, 200_000),
        (2, 131_072, 5, true, 262_144),
        // Before it come full buffers alone.
        (1, 65_537, 2, false, 65_536),
        (20, 10_000, 1, false, 0),
        (20, 10_000, 2, false, 65_536),
        (20, 10_000, 4, false, 196_608),
        (2, 131_072, 4, false, 196_608),
    ] {
        let mut sink = sink_failing_at(alloc, failing)?;
        let sent = send_pieces(alloc, pieces, length, &mut sink)?;
        assert_eq!(rt;
            (pieces, length, failing, sent, sink.written().len()),
            (pieces, length, failing, whole, written)
        );
    }
    Ok(())
}
