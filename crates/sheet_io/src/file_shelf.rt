// A shelf whose names are paths of files.
ghost use Rattle.std.specs.Prelude.{◌≡◌, ◌≤◌, ◌+◌, None, IsErrOf, vec_len};
ghost use Rattle.sheet_io.specs.Faults.{Rose};
ghost use Rattle.sheet_io.specs.Counts.{next_fault};
ghost use Rattle.sheet_io.specs.Shelf.{Fetches, TakesAtMost};
ghost use Rattle.sheet_io.specs.FileShelf.{file_faults};
ghost use Rattle.sheet_io.specs.declared.refusals.Fetch.TheVariants.{Failed};

use crate::{Fetch, Shelf};
use std::fs::File;
use std::io::Read;
use std::rt::Files;

/// Files, whose names are their paths. It tells nothing of what they hold.
///
/// A file that isn't opened is a fault, and so is a read that gives an error, an interrupted one too. A
/// fetch reads at most one byte past its limit, in pieces of 65,536 bytes, and appends none past it. After a
/// refusal the caller's vector may hold a part of the text behind what it held.
#[derive(Drop)]
pub struct FileShelf<'a, R: Files> {
    rt: &'a R,
    faults: u64,
}

impl<'a, R: Files> FileShelf<'a, R> {
    /// A shelf over the files that the runtime reaches, without faults so far.
    pub fn new(rt: &'a R) -> Self
        ensures { file_faults result ≡ 0 }
    {
        FileShelf { rt, faults: 0 }
    }
}

impl<'a, R: Files> Shelf for FileShelf<'a, R> {
    ghost holds = { λ _ _. None };

    ghost faults = { file_faults };

    fn fetch(&mut self, name: &str, limit: usize, into: &mut Vec<u8>) -> Result<(), Fetch>
        ensures fetched { Fetches None limit into.old.items into.new.items result }
        ensures within { vec_len into.new ≤ vec_len into.old + limit }
        ensures counted { file_faults self.old ≤ file_faults self.new }
        ensures cause { IsErrOf result Failed → Rose (file_faults self.old) (file_faults self.new) }

        // Each failed fetch is one fault, and nothing else is.
        ensures rises { IsErrOf result Failed
            → file_faults self.new ≡ next_fault (file_faults self.old) }
        ensures stays { ¬ IsErrOf result Failed → file_faults self.new ≡ file_faults self.old }
    {
        let result = match File::open(self.rt, name) {
            Ok(mut file) => read_whole(&mut file, limit, into),
            Err(_) => Err(Fetch::Failed),
        };
        if result == Err(Fetch::Failed) {
            self.faults = self.faults.saturating_add(1);
        }
        result
    }
}

// How many bytes one read asks for.
const PIECE: usize = 65_536;

/// Appends all that a reader has left, unless that is more than `limit` bytes, of which it then took one
/// more. A read of no bytes is the end. It stops at the first error.
fn read_whole<R: Read>(reader: &mut R, limit: usize, into: &mut Vec<u8>) -> Result<(), Fetch>
    ensures fetched { Fetches (R.remaining reader.old) limit into.old.items into.new.items result }
    ensures takes { TakesAtMost (R.remaining reader.old) (R.remaining reader.new) (limit + 1) }
    ensures within { vec_len into.new ≤ vec_len into.old + limit }
{
    let mut buffer = [0; PIECE];
    let mut room = limit;
    loop {
        // One byte more than the room tells whether there are more.
        let most = buffer.len().min(room.saturating_add(1));
        let Ok(count) = reader.read(&mut buffer[..most]) else {
            return Err(Fetch::Failed);
        };
        if count == 0 {
            return Ok(());
        }
        if count > room {
            return Err(Fetch::TooLong);
        }
        into.extend_from_slice(&buffer[..count])?;
        room -= count;
    }
}
