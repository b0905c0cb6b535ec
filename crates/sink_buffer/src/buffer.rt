ghost use Rattle.std.specs.Prelude.{◌≡◌, ◌≢◌, ◌<◌, ◌≤◌, ◌+◌, ◌++◌};
ghost use Rattle.std.specs.Prelude.{[], length, IfOk, IsTrue, OnErr};
ghost use Rattle.sheet_io.specs.Faults.{Rose};
ghost use Rattle.sheet_io.specs.Sink.{AppendsPrefix, Puts};
ghost use Rattle.sink_buffer.specs.Buffers.{HasPassed};

use sheet_io::{Failed, Memory, Sink};
use std::alloc::Global;
use std::marker::Model;

/// The most bytes that are held, which is how many are put at once.
const MOST: usize = 65_536;

/// Bytes that came and aren't put yet, at most 65,536.
///
/// Contracts see it as these bytes.
#[derive(Drop)]
pub struct SinkBuffer {
    bytes: Vec<u8>,
}

impl Model for SinkBuffer {
    ghost use Rattle.std.specs.Prelude.{ℕ, List};
    ghost use Rattle.sink_buffer.specs.Buffers.{HasRoom};

    ghost Value = { List ℕ };

    ghost view = { λ b. b.bytes.items };

    ghost invariant = { λ b. HasRoom b.bytes };
}

impl SinkBuffer {
    /// A buffer that holds nothing. All its memory is taken here.
    pub fn new(alloc: Global) -> Result<SinkBuffer, Memory>
        ensures { IfOk result (λ buffer. buffer ≡ []) }
    {
        Ok(SinkBuffer {
            bytes: Vec::with_capacity(alloc, MOST)?,
        })
    }

    /// Takes a piece of whatever length: puts full buffers, and holds what is left. Where a put fails, the answer is
    /// false and no further put is made in this call; what is held then has no meaning any more. It takes time in
    /// proportion to the piece.
    pub fn take<K: Sink>(&mut self, piece: &[u8], sink: &mut K) -> bool
        ensures passed { IsTrue result
            → HasPassed (K.written sink.old) (K.written sink.new) (self.old ++ piece.now) self.new }
        ensures cut { ¬ IsTrue result
            → AppendsPrefix (K.written sink.old) (K.written sink.new) (self.old ++ piece.now) }
        ensures cause { ¬ IsTrue result → Rose (K.faults sink.old) (K.faults sink.new) }
        ensures counted { K.faults sink.old ≤ K.faults sink.new }
    {
        // Nearly all pieces are short, and fit.
        if piece.len() <= MOST - self.bytes.len() {
            self.hold(piece);
            return true;
        }
        self.take_in_parts(piece, sink)
    }

    // The same of a piece that doesn't fit.
    fn take_in_parts<K: Sink>(&mut self, piece: &[u8], sink: &mut K) -> bool
        ensures passed { IsTrue result
            → HasPassed (K.written sink.old) (K.written sink.new) (self.old ++ piece.now) self.new }
        ensures cut { ¬ IsTrue result
            → AppendsPrefix (K.written sink.old) (K.written sink.new) (self.old ++ piece.now) }
        ensures cause { ¬ IsTrue result → Rose (K.faults sink.old) (K.faults sink.new) }
        ensures counted { K.faults sink.old ≤ K.faults sink.new }
    {
        let mut rest = piece;
        while !rest.is_empty() {
            if !self.make_room(sink) {
                return false;
            }
            rest = self.fill(rest);
        }
        true
    }

    /// Puts what is held, at the end of a text.
    pub fn finish<K: Sink>(self, sink: &mut K) -> Result<(), Failed>
        ensures taken { Puts (K.written sink.old) (K.written sink.new) self result }
        ensures counted { K.faults sink.old ≤ K.faults sink.new }
        ensures cause { OnErr result (Rose (K.faults sink.old) (K.faults sink.new)) }
    {
        sink.put(&self.bytes)
    }

    // Where nothing more fits, puts all that is held; false where that fails.
    fn make_room<K: Sink>(&mut self, sink: &mut K) -> bool
        ensures passed { IsTrue result
            → HasPassed (K.written sink.old) (K.written sink.new) self.old self.new }
        ensures room { IsTrue result → length self.new < 65536 }
        ensures cut { ¬ IsTrue result
            → AppendsPrefix (K.written sink.old) (K.written sink.new) self.old }
        ensures cause { ¬ IsTrue result → Rose (K.faults sink.old) (K.faults sink.new) }
        ensures counted { K.faults sink.old ≤ K.faults sink.new }
    {
        if self.bytes.len() < MOST {
            return true;
        }
        if sink.put(&self.bytes).is_err() {
            return false;
        }
        self.bytes.clear();
        true
    }

    // Holds bytes that fit.
    #[inline(always)]
    fn hold(&mut self, bytes: &[u8])
        requires room { length self.old + length bytes.now ≤ 65536 }
        ensures { self.new ≡ self.old ++ bytes.now }
    {
        // The room is there from the start, so this can't fail.
        let _ = self.bytes.extend_from_slice(bytes);
    }

    // Holds as many of the bytes as fit, and gives the others.
    fn fill<'a>(&mut self, bytes: &'a [u8]) -> &'a [u8]
        requires room { length self.old < 65536 }
        requires some { bytes.now ≢ [] }
        ensures held { self.old ++ bytes.now ≡ self.new ++ result.now }
        ensures less { length result.now < length bytes.now }
    {
        let fits = bytes.len().min(MOST - self.bytes.len());
        let (front, back) = bytes.split_at(fits);
        self.hold(front);
        back
    }
}
