// What no clause says: that calls succeed with ample memory, and what real files and writers do.
use sheet_io::{
    Cut, Fetch, FileShelf, MemoryShelf, MemorySink, Shelf, Sink, StreamSink, SureShelf, SureSink,
};
use std::alloc::{AllocError, Global};
use std::fs;
use std::io::{self, ErrorKind, Write};
use std::test::Fail;

// One fetch into a vector that holds `>`: its refusal, and what the vector holds then.
fn fetched<F: Shelf>(
    alloc: Global,
    shelf: &mut F,
    name: &str,
    limit: usize,
) -> Result<(Option<Fetch>, Vec<u8>), AllocError> {
    let mut into = b">".to_vec(alloc)?;
    let refusal = shelf.fetch(name, limit, &mut into).err();
    Ok((refusal, into))
}

fn put_through<K: Sink>(sink: &mut K, piece: &str) -> bool {
    sink.put(piece.as_bytes()).is_ok()
}

// The text `one` under `s`, `two lines` under `t`, and a second `s`, which is never read.
fn some_texts(alloc: Global) -> Result<Vec<(String, Vec<u8>)>, AllocError> {
    let mut texts = Vec::new(alloc);
    for (name, text) in [("s", "one"), ("t", "two lines"), ("s", "never")] {
        let entry = (
            String::from_str(alloc, name)?,
            text.as_bytes().to_vec(alloc)?,
        );
        texts.push(entry)?;
    }
    Ok(texts)
}

#[test]
fn a_shelf_in_memory_fails_by_its_list(rt: HostRuntime) -> Result<(), Fail> {
    let alloc = rt.alloc();
    let mut shelf = MemoryShelf::new(some_texts(alloc)?, [2, 6].to_vec(alloc)?);
    for &(name, limit, refusal, into) in &[
        ("s", 3, None, ">one"),
        ("s", 3, Some(Fetch::Failed), ">"),
        ("s", 2, Some(Fetch::TooLong), ">"),
        ("u", 9, Some(Fetch::Failed), ">"),
        ("t", 9, None, ">two lines"),
        ("t", 8, Some(Fetch::Failed), ">"),
        ("t", 8, Some(Fetch::TooLong), ">"),
    ] {
        let (refused, held) = fetched(alloc, &mut shelf, name, limit)?;
        assert_eq!(rt;
            (name, limit, refused, held.as_slice()),
            (name, limit, refusal, into.as_bytes())
        );
    }
    Ok(())
}

#[test]
fn a_sure_shelf_has_the_empty_text_under_other_names(rt: HostRuntime) -> Result<(), Fail> {
    let alloc = rt.alloc();
    let mut shelf = SureShelf::new(some_texts(alloc)?);
    for &(name, limit, refusal, into) in &[
        ("s", 3, None, ">one"),
        ("t", 8, Some(Fetch::TooLong), ">"),
        ("u", 0, None, ">"),
    ] {
        let (refused, held) = fetched(alloc, &mut shelf, name, limit)?;
        assert_eq!(rt;
            (name, limit, refused, held.as_slice()),
            (name, limit, refusal, into.as_bytes())
        );
    }
    Ok(())
}

#[test]
fn a_sink_in_memory_fails_by_its_list_and_at_its_room(rt: HostRuntime) -> Result<(), Fail> {
    let alloc = rt.alloc();
    let mut sink = MemorySink::new(alloc, 7, [2].to_vec(alloc)?)?;
    for &(piece, is_taken, written) in &[
        ("abc", true, "abc"),
        ("d", false, "abc"),
        ("de", true, "abcde"),
        ("fgh", false, "abcdefg"),
        ("", true, "abcdefg"),
        ("i", false, "abcdefg"),
    ] {
        let taken = put_through(&mut sink, piece);
        assert_eq!(rt;
            (piece, taken, sink.written()),
            (piece, is_taken, written.as_bytes())
        );
    }
    Ok(())
}

#[test]
fn a_sure_sink_takes_a_piece(rt: HostRuntime) {
    assert!(rt; put_through(&mut SureSink::new(), "abc"));
}

// Five cuts, two of them of one call.
fn some_cuts(alloc: Global) -> Result<Vec<Cut>, AllocError> {
    [(2, 1), (4, 0), (5, 9), (2, 3), (7, 4)]
        .map(|(call, taken)| Cut { call, taken })
        .to_vec(alloc)
}

// A cut that takes more than its piece takes the piece, and one that takes more than there is room for takes what fits.
#[test]
fn a_cut_put_takes_first_bytes_and_fails(rt: HostRuntime) -> Result<(), Fail> {
    let alloc = rt.alloc();
    let mut sink = MemorySink::cutting(alloc, 9, some_cuts(alloc)?)?;
    for &(piece, is_taken, written) in &[
        ("ab", true, "ab"),
        ("cde", false, "abc"),
        ("d", true, "abcd"),
        ("efg", false, "abcd"),
        ("ef", false, "abcdef"),
        ("", true, "abcdef"),
        ("ghijk", false, "abcdefghi"),
    ] {
        let taken = put_through(&mut sink, piece);
        assert_eq!(rt;
            (piece, taken, sink.written()),
            (piece, is_taken, written.as_bytes())
        );
    }
    Ok(())
}

// A text of this many letters.
fn letters(alloc: Global, count: usize) -> Result<Vec<u8>, AllocError> {
    vec![in alloc; b'x'; count]
}

// A file of nine bytes, one of 20,000, and a folder.
fn make_files(rt: &HostRuntime) -> Result<(), Fail> {
    fs::write(rt, "short", "some text")?;
    fs::write(rt, "long", letters(rt.alloc(), 20_000)?.as_slice())?;
    fs::create_dir(rt, "folder")?;
    Ok(())
}

// The first ten bytes, or all where there are fewer.
fn first_bytes(text: &[u8]) -> &[u8] {
    &text[..text.len().min(10)]
}

#[test]
fn files_are_read_to_their_end_within_the_limit(rt: HostRuntime) -> Result<(), Fail> {
    make_files(&rt)?;
    let mut shelf = FileShelf::new(&rt);
    for &(name, limit, refusal, first, count) in &[
        ("short", 9, None, ">some text", 10),
        ("short", 8, Some(Fetch::TooLong), ">", 1),
        ("short", usize::MAX, None, ">some text", 10),
        ("long", 20_000, None, ">xxxxxxxxx", 20_001),
        ("missing", 9, Some(Fetch::Failed), ">", 1),
        ("folder", 9, Some(Fetch::Failed), ">", 1),
    ] {
        let (refused, held) = fetched(rt.alloc(), &mut shelf, name, limit)?;
        assert_eq!(rt;
            (name, limit, refused, held.len()),
            (name, limit, refusal, count)
        );
        assert_eq!(rt; first_bytes(&held), first.as_bytes());
    }
    // No promise says how much of a text that is too long stands there.
    let past = fetched(rt.alloc(), &mut shelf, "long", 19_999)?;
    assert_eq!(rt; past.0, Some(Fetch::TooLong));
    Ok(())
}

// A writer that takes a few bytes at a time, and so many in all. Past these it takes nothing, or fails.
#[derive(Drop)]
struct Narrow {
    taken: Vec<u8>,
    at_once: usize,
    room: usize,
    fails: bool,
    flushes: bool,
}

impl Write for Narrow {
    fn write(&mut self, buf: &[u8]) -> io::Result<usize> {
        let count = buf.len().min(self.at_once).min(self.room);
        if count == 0 && self.fails {
            return Err(io::Error::from(ErrorKind::BrokenPipe));
        }
        self.taken.extend_from_slice(&buf[..count])?;
        self.room -= count;
        Ok(count)
    }

    fn flush(&mut self) -> io::Result<()> {
        if self.flushes {
            return Ok(());
        }
        Err(io::Error::from(ErrorKind::BrokenPipe))
    }
}

#[test]
fn a_stream_takes_a_whole_piece_or_fails(rt: HostRuntime) -> Result<(), Fail> {
    let alloc = rt.alloc();
    for &(at_once, room, fails, flushes, is_taken, written) in &[
        (3, 99, true, true, true, "a whole piece"),
        (99, 99, true, true, true, "a whole piece"),
        (3, 7, true, true, false, "a whole"),
        (3, 7, false, true, false, "a whole"),
        (3, 0, false, true, false, ""),
        (3, 99, true, false, false, "a whole piece"),
    ] {
        let mut writer = Narrow {
            taken: Vec::new(alloc),
            at_once,
            room,
            fails,
            flushes,
        };
        let taken = put_through(&mut StreamSink::new(&mut writer), "a whole piece");
        assert_eq!(rt;
            (at_once, room, fails, flushes, taken),
            (at_once, room, fails, flushes, is_taken)
        );
        assert_eq!(rt; writer.taken.as_slice(), written.as_bytes());
    }
    Ok(())
}
