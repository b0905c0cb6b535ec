ghost use Rattle.std.specs.Prelude.{◌≡◌, ◌≤◌, length, IfSome, OnOk};
ghost use Rattle.sheet_refs.specs.Cells.{cells_of};
ghost use Rattle.edit_log.specs.Rows.{IsInside};
ghost use Rattle.live_sheet.specs.Passes.{client_of};

use crate::edits::sets;
use crate::fields::range;
use crate::texts::write_board;
use formula_syntax::Edition;
use live_sheet::{Desk, Live, Naming, Pass};
use recalc_workers::{OpenGate, Turn};
use sheet_model::{Board, Sheet};
use sheet_refs::{Range, Sizes};
use std::alloc::Global;
use std::fmt::Write;
use std::sync::Wait;
use std::test::Fail;
use std::thread::Threads;

/// What a story of a live sheet is told by: a sheet that reads fields, a range and a board for looks at it, and the
/// text so far.
#[derive(Drop)]
pub(crate) struct Story {
    alloc: Global,
    reader: Sheet,
    pub(crate) range: Range,
    board: Board,
    pub(crate) text: String,
}

impl Story {
    /// A story of four cells of a range at most, of which nothing is told yet.
    pub(crate) fn new(alloc: Global, range: Range) -> Result<Story, Fail> {
        let reader = Sheet::blank(alloc, 1, 1, Edition::One)?;
        let board = Board::new(alloc, 4)?;
        Ok(Story {
            alloc,
            reader,
            range,
            board,
            text: String::new(alloc),
        })
    }

    /// The same, of the range of a name.
    pub(crate) fn of(alloc: Global, name: &str) -> Result<Story, Fail> {
        Story::new(alloc, range(name)?)
    }

    /// What was told.
    pub(crate) fn into_text(self) -> String {
        let Story { text, .. } = self;
        text
    }
}

// What of the range is in the sheet; none where there is nothing of it, or no room for it on the board.
fn window_of<N: Naming>(sizes: Sizes, range: Range, board: &Board) -> Option<Range>
    requires { sizes ≡ N.opening.sizes }
    ensures inside { IfSome result (λ window. IsInside N.opening.sizes window) }
    ensures room { IfSome result (λ window. length (cells_of window) ≤ board.now.room) }
{
    let window = sizes.clip(range)?;
    if window.cells() > u64::from(board.room()) {
        return None;
    }
    Some(window)
}

/// Looks at what of the range is in the sheet; false where there is nothing of it, or no room for it.
pub(crate) fn looks<N: Naming>(
    live: &Live<N>,
    pass: &mut Pass<N>,
    sizes: Sizes,
    range: Range,
    board: &mut Board,
) -> bool
    requires { sizes ≡ N.opening.sizes }
    ensures { client_of pass.new ≡ client_of pass.old }
{
    let Some(window) = window_of::<N>(sizes, range, board) else {
        return false;
    };
    live.look(pass, window, board);
    true
}

/// Looks at what of the range is in the sheet, and writes what is shown.
pub(crate) fn look<N: Naming>(
    live: &Live<N>,
    pass: &mut Pass<N>,
    sizes: Sizes,
    story: &mut Story,
) -> Result<(), Fail>
    requires { sizes ≡ N.opening.sizes }
    ensures { client_of pass.new ≡ client_of pass.old }
{
    if !looks(live, pass, sizes, story.range, &mut story.board) {
        return Err(Fail::from("no cells, or too many"));
    }
    write_board(&mut story.text, &story.board)
}

/// Takes a firm look at what of the range is in the sheet; false where there is nothing of it, or no room.
pub(crate) fn firms<N: Naming, R: Threads + Wait + Sync>(
    rt: &R,
    live: &Live<N>,
    pass: &mut Pass<N>,
    sizes: Sizes,
    range: Range,
    board: &mut Board,
) -> bool
    requires { sizes ≡ N.opening.sizes }
{
    let Some(window) = window_of::<N>(sizes, range, board) else {
        return false;
    };
    live.firm(rt, pass, window, board, &OpenGate).is_ok()
}

/// Takes a firm look at what of the range is in the sheet, and writes what is shown.
pub(crate) fn firm<N: Naming, R: Threads + Wait + Sync>(
    rt: &R,
    live: &Live<N>,
    pass: &mut Pass<N>,
    sizes: Sizes,
    story: &mut Story,
) -> Result<(), Fail>
    requires { sizes ≡ N.opening.sizes }
{
    if !firms(rt, live, pass, sizes, story.range, &mut story.board) {
        return Err(Fail::from("no firm look"));
    }
    story.text.push_str(" firm ")?;
    write_board(&mut story.text, &story.board)
}

// Makes the edit by which a cell is to hold a field, and gives its number.
fn makes<N: Naming, R: Wait>(
    rt: &R,
    live: &Live<N>,
    pass: &mut Pass<N>,
    change: (&str, &str),
    story: &mut Story,
) -> Result<u64, Fail>
    ensures { OnOk result (client_of pass.new ≡ client_of pass.old) }
{
    let (name, field) = change;
    let edit = sets(story.alloc, &mut story.reader, name, field)?;
    match live.edit(rt, pass, edit) {
        Ok(done) => Ok(done.number),
        Err(_) => Err(Fail::from("an edit that is refused")),
    }
}

// Writes the number of an edit.
fn write_number(text: &mut String, number: u64) -> Result<(), Fail> {
    write!(text, " #{number} ")?;
    Ok(())
}

/// Makes the edit by which a cell is to hold a field, which is no label, and writes its number.
pub(crate) fn edit<N: Naming, R: Wait>(
    rt: &R,
    live: &Live<N>,
    pass: &mut Pass<N>,
    change: (&str, &str),
    story: &mut Story,
) -> Result<(), Fail>
    ensures { OnOk result (client_of pass.new ≡ client_of pass.old) }
{
    let number = makes(rt, live, pass, change, story)?;
    write_number(&mut story.text, number)
}

/// Looks, makes an edit, and looks again.
pub(crate) fn looks_and_edits<N: Naming, R: Wait>(
    rt: &R,
    live: &Live<N>,
    pass: &mut Pass<N>,
    sizes: Sizes,
    change: (&str, &str),
    story: &mut Story,
) -> Result<(), Fail>
    requires { sizes ≡ N.opening.sizes }
{
    look(live, pass, sizes, story)?;
    edit(rt, live, pass, change, story)?;
    look(live, pass, sizes, story)
}

/// Takes so many turns at a desk, and writes which cells were computed.
pub(crate) fn work<N: Naming, R: Wait>(
    rt: &R,
    live: &Live<N>,
    desk: &mut Desk<N>,
    turns: u32,
    text: &mut String,
) -> Result<(), Fail> {
    for _ in 0..turns {
        match live.work(rt, desk, &OpenGate) {
            Turn::Done(cell) => write!(text, " {cell}")?,
            Turn::Idle => text.push_str(" idle")?,
            _ => text.push_str(" other")?,
        }
    }
    text.push_str(" ")?;
    Ok(())
}
