// Threads over one table of words: what no clause says, that each call answers where it may be made, and that threads
// see one another's steps.
ghost use Rattle.std.specs.Prelude.{◌≡◌, ◌≤◌, ◌<◌, ◌+◌, length, true, All, IfOk};
ghost use Rattle.mark_words.specs.Tokens.{IsSeatOf, places_of, is_editor, log_of, closed_places};
ghost use Rattle.mark_trial.specs.Threads.{IsReadyEditor, IsBlank};

use crate::two_cells::TwoTestCells;
use mark_core::{Clean, Memory};
use mark_words::{Marks, Seat, Words};
use std::alloc::Global;
use std::test::Fail;
use std::thread::{Threads, join};

mod row;
mod uses;

type Table = Marks<TwoTestCells>;

type Token = Seat<TwoTestCells>;

type Cell = (u64, Clean, u64);

/// Marks both cells for an entry with the next number and commits it.
fn sets_both(marks: &Table, editor: &mut Token, count: u64) -> u64
    requires ready { IsReadyEditor marks.now editor.old count }
    requires room { count < 1048576 }
    ensures count { result ≡ count + 1 }
    ensures ready { IsReadyEditor marks.now editor.new (count + 1) }
{
    marks.mark(editor, &7, 0, count + 1);
    marks.mark(editor, &7, 1, count + 1);
    marks.commit(editor)
}

/// Commits entries, from this many on to so many.
fn sets_often(marks: &Table, mut editor: Token, from: u64, entries: u64) -> Token
    requires ready { IsReadyEditor marks.now editor from }
    requires room { (from ≤ entries) × (entries ≤ 1048576) }
    ensures { IsReadyEditor marks.now result entries }
{
    let mut count = from;
    while count < entries {
        count = sets_both(marks, &mut editor, count);
    }
    editor
}

/// Whether the seat sees this count, within a limit of turns.
fn sees_until(marks: &Table, mut seat: Token, count: u64) -> (bool, Token)
    requires { IsBlank marks.now seat }
    ensures { IsBlank marks.now result.1 }
{
    for _ in 0..10_000_000 {
        if marks.see(&mut seat) == count {
            return (true, seat);
        }
    }
    (false, seat)
}

/// One thread commits an entry, and another sees until it is counted.
fn race<R: Threads + Sync>(
    rt: &R,
    marks: &Table,
    editor: Token,
    viewer: Token,
) -> (Token, (bool, Token))
    requires ready { IsReadyEditor marks.now editor 0 }
    requires blank { IsBlank marks.now viewer }
    ensures ready { IsReadyEditor marks.now result.0 1 }
    ensures blank { IsBlank marks.now result.1.1 }
{
    join(
        rt,
        move || -> Token
            requires { IsReadyEditor marks.now editor 0 }
            ensures { IsReadyEditor marks.entry.now result 1 }
        { sets_often(marks, editor, 0, 1) },
        move || -> (bool, Token)
            requires { IsBlank marks.now viewer }
            ensures { IsBlank marks.entry.now result.1 }
        { sees_until(marks, viewer, 1) },
    )
}

/// The viewer knows the one entry after it met the editor.
fn learns(marks: &Table, viewer: &mut Token, editor: &mut Token)
    requires blank { IsBlank marks.now viewer.old }
    requires ready { IsReadyEditor marks.now editor.old 1 }
    ensures ready { IsReadyEditor marks.now editor.new 1 }
    ensures table { IsSeatOf marks.now viewer.new }
    ensures log { length (log_of viewer.new) ≡ 1 }
{
    marks.meet(viewer, editor);
}

fn cell(words: &Words<TwoTestCells>, place: u32) -> Cell
    requires { place < closed_places words.now }
{
    (words.mark(place), words.clean(place), words.value(place))
}

/// The two places of the words as they are closed.
fn closes(marks: Table, editor: Token, others: Vec<Token>) -> Option<(Cell, Cell)>
    requires table { IsSeatOf marks editor }
    requires editor { is_editor editor ≡ true }
    requires two { places_of marks ≡ 2 }
    requires tables { All (λ other. IsSeatOf marks other) others.items }
{
    let words = marks.close(editor, others).ok()?;
    Some((cell(&words, 0), cell(&words, 1)))
}

/// The first cell opens with the code of 1, and the second with none.
fn opened(alloc: Global) -> Result<(Table, Token), Memory>
    ensures { IfOk result (λ r. IsReadyEditor r.0 r.1 0) }
{
    Marks::open(alloc, TwoTestCells, &[Some(TwoTestCells::code(1)), None])
}

/// The first cell with this mark and the second, as they were opened.
fn marked(mark: u64) -> Option<(Cell, Cell)> {
    let free = |upto| Clean { upto, held: false };
    Some(((mark, free(1), TwoTestCells::code(1)), (mark, free(0), 0)))
}

#[test]
fn a_second_thread_sees_the_commit(rt: HostRuntime) -> Result<(), Fail> {
    let alloc = rt.alloc();
    let (marks, mut editor) = opened(alloc)?;
    let viewer = marks.split(&mut editor);
    let (mut editor, (saw, mut viewer)) = race(&rt, &marks, editor, viewer);
    learns(&marks, &mut viewer, &mut editor);
    let mut others = Vec::new(alloc);
    others.push(viewer)?;
    let closed = closes(marks, editor, others);
    assert_eq!(rt; (saw, closed), (true, marked(1)));
    Ok(())
}
