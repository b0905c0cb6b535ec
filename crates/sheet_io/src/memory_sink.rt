// A sink that keeps its bytes in memory.
ghost use Rattle.std.specs.Prelude.{◌≡◌, ◌≤◌, IfOk, map, min, vec_len, vec_capacity};
ghost use Rattle.sheet_io.specs.Cuts.{cut_off, limit_of};

use crate::counts::Counts;
use crate::cuts::{Cut, find_cut};
use crate::{Failed, Memory, Sink};
use std::alloc::{AllocError, Global};

/// Bytes in memory up to a fixed number, and a list of the puts that are to fail.
///
/// A put takes what still fits of its piece; one that stands in the list, no more than its cut says. It fails where it
/// stands in the list, or where the piece doesn't fit. Each time it fails the faults rise. A call past the
/// 4,294,967,295th counts under that number.
#[derive(Debug, Drop)]
pub struct MemorySink {
    bytes: Vec<u8>,
    room: usize,
    cuts: Vec<Cut>,
    counts: Counts,
    ghost within: { vec_len bytes ≤ room },
    ghost reserved: { room ≤ vec_capacity bytes },
}

impl MemorySink {
    ghost use Rattle.std.specs.Prelude.{[]};
    ghost use Rattle.sheet_io.specs.MemorySink.{sink_bytes, sink_room, sink_cuts, put_calls};
    ghost use Rattle.sheet_io.specs.MemorySink.{put_faults};

    /// A sink that takes `room` bytes in all, of which the calls with the numbers in `fail`, from 1, are to
    /// fail with nothing taken. The room is reserved here, and no put takes memory.
    pub fn new(alloc: Global, room: u32, fail: Vec<u32>) -> Result<Self, Memory>
        ensures empty { IfOk result (λ sink. sink_bytes sink ≡ []) }
        ensures room { IfOk result (λ sink. sink_room sink ≡ room) }
        ensures cuts { IfOk result (λ sink. sink_cuts sink ≡ map cut_off fail.items) }
        ensures calls { IfOk result (λ sink. put_calls sink ≡ 0) }
        ensures faults { IfOk result (λ sink. put_faults sink ≡ 0) }
    {
        MemorySink::cutting(alloc, room, cuts_off(alloc, &fail)?)
    }

    /// A sink that takes `room` bytes in all, of which the puts in `cuts` are to fail. Where several cuts have one
    /// number, the first of them counts. The room is reserved here, and no put takes memory.
    pub fn cutting(alloc: Global, room: u32, cuts: Vec<Cut>) -> Result<Self, Memory>
        ensures empty { IfOk result (λ sink. sink_bytes sink ≡ []) }
        ensures room { IfOk result (λ sink. sink_room sink ≡ room) }
        ensures cuts { IfOk result (λ sink. sink_cuts sink ≡ cuts.items) }
        ensures calls { IfOk result (λ sink. put_calls sink ≡ 0) }
        ensures faults { IfOk result (λ sink. put_faults sink ≡ 0) }
    {
        let room = room as usize;
        Ok(MemorySink {
            bytes: Vec::with_capacity(alloc, room)?,
            room,
            cuts,
            counts: Counts::new(),
        })
    }

    /// All the bytes that were taken.
    pub fn written(&self) -> &[u8]
        ensures { result.now ≡ sink_bytes self.now }
    {
        &self.bytes
    }
}

/// The puts with these numbers, of which each takes nothing.
fn cuts_off(alloc: Global, calls: &[u32]) -> Result<Vec<Cut>, AllocError>
    ensures { IfOk result (λ cuts. cuts.items ≡ map cut_off calls.now) }
{
    calls
        .iter()
        .map(|call| Cut {
            call: *call,
            taken: 0,
        })
        .collect(alloc)
}

/// How many bytes a put takes of a piece of this length, where there is room for so many and this is its cut.
fn taken_of(length: usize, room: usize, cut: Option<u32>) -> usize
    ensures { result ≡ min length (limit_of cut room) }
{
    match cut {
        Some(taken) => length.min(room).min(taken as usize),
        None => length.min(room),
    }
}

impl Sink for MemorySink {
    ghost use Rattle.std.specs.Prelude.{◌<◌, ◌+◌, ◌-◌, ◌++◌, ◌⊎◌, ◌↔◌, Some, length, take};
    ghost use Rattle.std.specs.Prelude.{IsErr, IsSome, OnOk, OnErr};
    ghost use Rattle.sheet_io.specs.Faults.{Rose};
    ghost use Rattle.sheet_io.specs.MemorySink.{sink_bytes, sink_room, sink_cuts, put_calls};
    ghost use Rattle.sheet_io.specs.MemorySink.{put_faults, next_cut, TakesWhatItMay, IsPastRoom};
    ghost use Rattle.sheet_io.specs.Counts.{next_call, next_fault};
    ghost use Rattle.sheet_io.specs.Sink.{Puts};

    ghost written = { λ sink. Some (sink_bytes sink) };

    ghost faults = { put_faults };

    /// Looks at the cuts one after the other.
    fn put(&mut self, bytes: &[u8]) -> Result<(), Failed>
        ensures taken { Puts
            (Some (sink_bytes self.old)) (Some (sink_bytes self.new)) bytes.now result }
        ensures counted { put_faults self.old ≤ put_faults self.new }
        ensures cause { OnErr result (Rose (put_faults self.old) (put_faults self.new)) }

        // What it takes, and that it fails exactly where it is cut or the piece doesn't fit.
        ensures takes { TakesWhatItMay self.old self.new bytes.now }
        ensures fails { IsErr result ↔ (IsSome (next_cut self.old) ⊎ IsPastRoom self.old bytes.now) }

        ensures room { sink_room self.new ≡ sink_room self.old }
        ensures cuts { sink_cuts self.new ≡ sink_cuts self.old }
        ensures calls { put_calls self.new ≡ next_call (put_calls self.old) }
        ensures rises { OnErr result (put_faults self.new ≡ next_fault (put_faults self.old)) }
        ensures stays { OnOk result (put_faults self.new ≡ put_faults self.old) }
    {
        let call = self.counts.begin();
        let cut = find_cut(&self.cuts, call);
        let taken = taken_of(bytes.len(), self.room - self.bytes.len(), cut);
        // The room is reserved, so this can't fail.
        let _ = self.bytes.extend_from_slice(&bytes[..taken]);
        if cut.is_some() || taken < bytes.len() {
            self.counts.raise();
            return Err(Failed);
        }
        Ok(())
    }
}
