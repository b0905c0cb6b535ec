// A sink over a writer of the standard library, as standard output.
ghost use Rattle.std.specs.Prelude.{◌≡◌, ◌≤◌, OnOk, OnErr};
ghost use Rattle.sheet_io.specs.Faults.{Rose};
ghost use Rattle.sheet_io.specs.Counts.{next_fault};
ghost use Rattle.sheet_io.specs.Sink.{Puts};
ghost use Rattle.sheet_io.specs.StreamSink.{stream_writer, stream_faults};

use crate::{Failed, Sink};
use std::io::Write;

/// Writes to a stream. It tells what its writer tells: of standard output, a file or a socket nothing.
///
/// Each put writes its piece through to the end and flushes, so many small puts make many system calls.
/// A write that gives an error, an interrupted one too, or that takes nothing of what is left, is a fault,
/// and so is a flush that gives an error.
#[derive(Drop)]
pub struct StreamSink<W: Write> {
    writer: W,
    faults: u64,
}

impl<W: Write> StreamSink<W> {
    /// A sink over this writer, without faults so far.
    pub fn new(writer: W) -> Self
        ensures writer { stream_writer result ≡ writer }
        ensures faults { stream_faults result ≡ 0 }
    {
        StreamSink { writer, faults: 0 }
    }
}

impl<W: Write> Sink for StreamSink<W> {
    ghost written = { λ sink. W.contents (stream_writer sink) };

    ghost faults = { stream_faults };

    fn put(&mut self, bytes: &[u8]) -> Result<(), Failed>
        ensures taken { Puts
            (W.contents (stream_writer self.old)) (W.contents (stream_writer self.new))
            bytes.now result }
        ensures counted { stream_faults self.old ≤ stream_faults self.new }
        ensures cause { OnErr result (Rose (stream_faults self.old) (stream_faults self.new)) }

        // Each failed put is one fault, and nothing else is.
        ensures rises { OnErr result
            (stream_faults self.new ≡ next_fault (stream_faults self.old)) }
        ensures stays { OnOk result (stream_faults self.new ≡ stream_faults self.old) }
    {
        let result = write_through(&mut self.writer, bytes);
        if result.is_err() {
            self.faults = self.faults.saturating_add(1);
        }
        result
    }
}

/// Writes the bytes and flushes. It stops at the first error, and at a write that takes nothing.
fn write_through<W: Write>(writer: &mut W, bytes: &[u8]) -> Result<(), Failed>
    ensures { Puts (W.contents writer.old) (W.contents writer.new) bytes.now result }
{
    let mut rest = bytes;
    while !rest.is_empty() {
        match writer.write(rest) {
            Ok(0) => return Err(Failed),
            Ok(count) => rest = &rest[count..],
            Err(_) => return Err(Failed),
        }
    }
    match writer.flush() {
        Ok(()) => Ok(()),
        Err(_) => Err(Failed),
    }
}
