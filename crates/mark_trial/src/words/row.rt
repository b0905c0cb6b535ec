ghost use Rattle.std.specs.Prelude.{◌≡◌, ◌<◌, ◌+◌};
ghost use Rattle.mark_words.specs.Tokens.{IsSeatOf};
ghost use Rattle.mark_trial.specs.TwoTestCells.{code_of};
ghost use Rattle.mark_trial.specs.Threads.{IsReadyEditor, KnowsLast};

use crate::two_cells::TwoTestCells;
use crate::words::uses::{Loads, reads, recomputes};
use crate::words::{Table, Token, opened};
use mark_core::{Clean, Seen, shown};
use std::test::Fail;

/// Marks both cells for the entry and commits it. The viewer reads the first one in between, and answers what it found.
fn sets(marks: &Table, editor: &mut Token, viewer: &mut Token, count: u64, entry: u32) -> Loads
    requires ready { IsReadyEditor marks.now editor.old count }
    requires viewer { IsSeatOf marks.now viewer.old }
    requires room { count < 1048576 }
    ensures ready { IsReadyEditor marks.now editor.new (count + 1) }
    ensures last { KnowsLast marks.now editor.new (count + 1) entry }
    ensures viewer { IsSeatOf marks.now viewer.new }
{
    marks.mark(editor, &entry, 0, count + 1);
    let loads = reads(marks, viewer, 0);
    marks.mark(editor, &entry, 1, count + 1);
    marks.commit(editor);
    loads
}

/// A worker's seat that knows what the editor's does.
fn hires(marks: &Table, editor: &mut Token, _count: u64, _last: u32) -> Token
    requires ready { IsReadyEditor marks.now editor.old _count }
    requires last { KnowsLast marks.now editor.old _count _last }
    ensures ready { IsReadyEditor marks.now editor.new _count }
    ensures last { KnowsLast marks.now editor.new _count _last }
    ensures worker { KnowsLast marks.now result _count _last }
{
    marks.split(editor)
}

/// The code of the cell after the entries, of which this is the last.
fn code(place: u32, last: u32) -> u64
    requires { place < 2 }
    ensures { result ≡ code_of (last + place) }
{
    TwoTestCells::code(u64::from(last) + u64::from(place))
}

/// Computes the cell, and answers the mark for which it is known as clean then.
fn computes(marks: &Table, worker: &mut Token, place: u32, count: u64, last: u32) -> Option<u64>
    requires worker { KnowsLast marks.now worker.old count last }
    requires there { place < 2 }
    ensures worker { KnowsLast marks.now worker.new count last }
{
    recomputes(marks, worker, place, code(place, last), count).1
}

/// Two workers read a cell as stale and claim it. The first computes it, and the second answers what its claim found.
fn contends(
    marks: &Table,
    first: &mut Token,
    second: &mut Token,
    place: u32,
    count: u64,
    last: u32,
) -> Option<Clean>
    requires first { KnowsLast marks.now first.old count last }
    requires second { IsSeatOf marks.now second.old }
    requires there { place < 2 }
    ensures first { KnowsLast marks.now first.new count last }
    ensures second { IsSeatOf marks.now second.new }
{
    let other = reads(marks, second, place);
    let own = reads(marks, first, place);
    if other.clean.held || other.clean.is_for(other.mark) {
        return None;
    }
    if own.mark > count || own.clean.held || own.clean.is_for(own.mark) {
        return None;
    }
    let Ok(()) = marks.claim(first, place, own.clean) else {
        return None;
    };
    let found = marks.claim(second, place, other.clean).err();
    marks.put(first, place, code(place, last));
    marks.finish(first, place, own.mark);
    found
}

fn free(upto: u64) -> Clean {
    Clean { upto, held: false }
}

fn found(loads: Loads) -> (Clean, u64, u64) {
    (loads.clean, loads.word, loads.mark)
}

/// What a read found, and what it shows to a viewer who has seen one commit.
fn shows(words: (Clean, u64, u64)) -> ((Clean, u64, u64), Seen) {
    (words, shown(1, words.0, words.1, words.2))
}

/// What a viewer who has seen one commit is shown of a place that is marked for a second edit, and then of its value
/// that was computed for it; and what a claim of a held place finds.
#[test]
fn later_edits_show_as_stale_and_newer(rt: HostRuntime) -> Result<(), Fail> {
    let (marks, mut editor) = opened(rt.alloc())?;
    let mut viewer = marks.split(&mut editor);
    sets(&marks, &mut editor, &mut viewer, 0, 5);
    let mut worker = hires(&marks, &mut editor, 1, 5);
    let mut second = hires(&marks, &mut editor, 1, 5);
    let held = Clean {
        upto: 1,
        held: true,
    };
    let refused = contends(&marks, &mut worker, &mut second, 0, 1, 5);
    let first = computes(&marks, &mut worker, 1, 1, 5);
    let count = marks.see(&mut viewer);
    let marked = found(sets(&marks, &mut editor, &mut viewer, 1, 6));
    let mut worker = hires(&marks, &mut editor, 2, 6);
    let later = computes(&marks, &mut worker, 0, 2, 6);
    let newer = found(reads(&marks, &mut viewer, 0));
    assert_eq!(rt;
        ((refused, first, count, later), shows(marked), shows(newer)),
        (
            (Some(held), Some(1), 1, Some(2)),
            ((free(2), TwoTestCells::code(5), 2), Seen::Stale(2)),
            ((free(3), 72057594037927985, 2), Seen::Newer(2)),
        )
    );
    Ok(())
}
