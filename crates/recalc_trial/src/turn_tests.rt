// What no clause says: that turns compute where there is memory, and that each answer can be had. The expected answers
// were worked out by hand. Each is brought about by what was done before the turn.
ghost use Rattle.std.specs.Prelude.{◌≡◌, ◌<◌, IfOk, OnOk};
ghost use Rattle.mark_words.specs.Tokens.{IsSeatOf, doing_of, places_of, subject_of};
ghost use Rattle.recalc_workers.specs.Desks.{seat_of, hand_of};
ghost use Rattle.recalc_workers.specs.Hands.{IsHandOf, sizes_of};
ghost use Rattle.recalc_workers.specs.Offices.{words_for};
ghost use Rattle.recalc_trial.specs.Opened.{IsOpenedOver};

use crate::crossing::{entries_cross, subject_crosses};
use crate::office::BookOffice;
use crate::opening::opening_codes;
use crate::sheets::{cell, sheet_of};
use edit_log::{Book, OverSheet};
use mark_words::{Marks, Seat};
use plain_graph::PlainGraph;
use recalc_workers::{Desk, Hand, Job, Jobs, OpenGate, Turn, turn};
use sheet_model::{Change, Content, Edit, Entry, Sheet};
use sheet_refs::Sizes;
use std::alloc::Global;
use std::fmt::Write;
use std::sync::Wait;
use std::test::Fail;
use value_core::Whole;

// Offers a job for a cell.
fn offer<R: Wait>(rt: &R, jobs: &Jobs, hand: &mut Hand, name: &str, tries: u8) -> Result<(), Fail>
    requires { IsHandOf jobs.now hand.old }
    ensures { IsHandOf jobs.now hand.new }
{
    let cell = cell(name)?;
    let sizes = Sizes {
        rows: jobs.rows(),
        cols: jobs.cols(),
    };
    if !sizes.holds(cell) || tries > 16 {
        return Err(Fail::from("a job that is none"));
    }
    let _ = jobs.offer(rt, hand, Job { cell, tries });
    Ok(())
}

// Writes what a turn answered.
fn write_turn(text: &mut String, turn: &Turn) -> Result<(), Fail> {
    match turn {
        Turn::Done(cell) => write!(text, "done {cell};")?,
        Turn::Idle => write!(text, "idle;")?,
        Turn::Nothing(cell) => write!(text, "nothing {cell};")?,
        Turn::Later { cell, mark, met } => write!(text, "later {cell} {mark} {met};")?,
        Turn::Stale { cell, input, met } => write!(text, "stale {cell} {input} {met};")?,
        Turn::Busy { cell, seen, found } => {
            write!(text, "busy {cell} {} {};", seen.upto, found.upto)?
        }
        Turn::Memory(cell) => write!(text, "memory {cell};")?,
    }
    Ok(())
}

// Makes turns, and writes their answers.
fn turns<R: Wait>(
    rt: &R,
    desk: &mut Desk<OverSheet>,
    marks: &Marks<OverSheet>,
    jobs: &Jobs,
    office: &mut BookOffice,
    count: u32,
    text: &mut String,
) -> Result<(), Fail>
    requires table { IsSeatOf marks.now (seat_of desk.old) }
    requires words { words_for office.old.marks.now ≡ words_for marks.now }
    requires sizes { sizes_of jobs.now ≡ (subject_of marks.now).sizes }
    requires hand { IsHandOf jobs.now (hand_of desk.old) }
{
    subject_crosses();
    for _ in 0..count {
        let answer = turn(rt, desk, marks, jobs, office, &OpenGate);
        write_turn(text, &answer)?;
    }
    Ok(())
}

// The words of a sheet as it opens, and the editor's seat.
fn opened(alloc: Global, sheet: &Sheet) -> Result<(Marks<OverSheet>, Seat<OverSheet>), Fail>
    ensures { IfOk result (IsOpenedOver sheet.now) }
{
    entries_cross();
    subject_crosses();
    let codes = opening_codes(alloc, sheet)?;
    // Says that its cells are few enough.
    let _sizes = sheet.sizes();
    let subject = OverSheet::of(sheet);
    Ok(Marks::open(alloc, subject, &codes)?)
}

// A queue with jobs of two tries for these cells.
fn jobs_for<R: Wait>(
    rt: &R,
    alloc: Global,
    sizes: Sizes,
    names: &[&str],
) -> Result<(Jobs, Hand), Fail>
    ensures { IfOk result (λ r. IsHandOf r.0 r.1 × (sizes_of r.0 ≡ sizes)) }
{
    let (jobs, mut hand) = Jobs::new(alloc, sizes.rows, sizes.cols)?;
    for name in names {
        offer(rt, &jobs, &mut hand, name, 2)?;
    }
    Ok((jobs, hand))
}

// What goes on beside the turns.
#[derive(Clone, Copy, Drop)]
enum Beside {
    // Nothing,
    Nothing,
    // another seat holds A1,
    Held,
    // or an edit of A1 is being marked.
    Edit,
}

// Holds a place by a seat of its own, which is let go while it holds it.
fn hold(marks: &Marks<OverSheet>, editor: &mut Seat<OverSheet>, place: u32) -> Result<(), Fail>
    requires table { IsSeatOf marks.now editor.old }
    requires there { place < places_of marks.now }
    ensures same { OnOk result (IsSeatOf marks.now editor.new) }
    ensures kept { OnOk result (doing_of editor.new ≡ doing_of editor.old) }
{
    let mut seat = marks.split(editor);
    let clean = marks.read_clean(&mut seat, place);
    let mark = marks.read_mark(&mut seat, place);
    if clean.held || clean.upto > mark {
        return Err(Fail::from("a cell that can't be held"));
    }
    match marks.claim(&mut seat, place, clean) {
        Ok(()) => Ok(()),
        Err(_) => Err(Fail::from("a cell that another seat holds")),
    }
}

// Holds A1 of the sheet where another seat is to hold it.
#[tactic(auto, using(crate::proofs::OpenedLemmas::places_are))]
fn hold_where_asked(
    marks: &Marks<OverSheet>,
    editor: &mut Seat<OverSheet>,
    sheet: &Sheet,
    beside: Beside,
) -> Result<(), Fail>
    requires { IsOpenedOver sheet.now (marks.now, editor.old) }
    ensures same { OnOk result (IsSeatOf marks.now editor.new) }
    ensures kept { OnOk result (doing_of editor.new ≡ doing_of editor.old) }
{
    let sizes = sheet.sizes();
    let first = cell("A1")?;
    if !sizes.holds(first) {
        return Err(Fail::from("a sheet without cells"));
    }
    let place = sizes.place(first) as u32;
    match beside {
        Beside::Held => hold(marks, editor, place),
        _ => Ok(()),
    }
}

// An edit of A1 to the number 5.
fn edit_of_first(alloc: Global) -> Result<Entry, Fail> {
    let number = Whole::new(5).ok_or("no number")?;
    let change = Change {
        cell: cell("A1")?,
        content: Content::Number(number),
    };
    let edit = Edit::one(alloc, change)?;
    Ok(Entry { client: 0, edit })
}

// An office over a sheet, whose words these are; with an edit of A1 that comes next, where it is asked for.
fn office_of<'a>(
    alloc: Global,
    sheet: Sheet,
    marks: &'a Marks<OverSheet>,
    editor: Seat<OverSheet>,
    beside: &Beside,
) -> Result<BookOffice<'a>, Fail>
    requires { IsOpenedOver sheet (marks.now, editor) }
    ensures { IfOk result (λ office. words_for office.marks.now ≡ words_for marks.now) }
{
    let book = Book::open(alloc, sheet, PlainGraph::new(alloc))?;
    let next = match beside {
        Beside::Edit => Some(edit_of_first(alloc)?),
        _ => None,
    };
    Ok(BookOffice {
        marks,
        editor,
        book,
        next,
        alloc,
    })
}

// The answers of so many turns of a desk.
fn answered<R: Wait>(
    rt: &R,
    desk: &mut Desk<OverSheet>,
    marks: &Marks<OverSheet>,
    jobs: &Jobs,
    mut office: BookOffice,
    count: u32,
    alloc: Global,
) -> Result<String, Fail>
    requires table { IsSeatOf marks.now (seat_of desk.old) }
    requires words { words_for office.marks.now ≡ words_for marks.now }
    requires sizes { sizes_of jobs.now ≡ (subject_of marks.now).sizes }
    requires hand { IsHandOf jobs.now (hand_of desk.old) }
{
    let mut text = String::new(alloc);
    turns(rt, desk, marks, jobs, &mut office, count, &mut text)?;
    Ok(text)
}

// The answers of so many turns over a sheet with these fields, with jobs of two tries for these cells.
fn answers<R: Wait>(
    rt: &R,
    alloc: Global,
    fields: &[(&str, &str)],
    names: &[&str],
    count: u32,
    beside: Beside,
) -> Result<String, Fail> {
    subject_crosses();
    entries_cross();
    let sheet = sheet_of(alloc, fields)?;
    let (jobs, hand) = jobs_for(rt, alloc, sheet.sizes(), names)?;
    let (marks, mut editor) = opened(alloc, &sheet)?;
    hold_where_asked(&marks, &mut editor, &sheet, beside)?;
    let mut desk = Desk::new(alloc, marks.split(&mut editor), hand)?;
    let office = office_of(alloc, sheet, &marks, editor, &beside)?;
    answered(rt, &mut desk, &marks, &jobs, office, count, alloc)
}

// The fields of a sheet, the cells for which there are jobs, how many turns are made, what goes on beside them, and
// the answers.
type Row = (
    &'static [(&'static str, &'static str)],
    &'static [&'static str],
    u32,
    Beside,
    &'static str,
);

const ROWS: [Row; 5] = [
    // A constant needs nothing, and then there is no job.
    (
        &[("A1", "1")],
        &["A1"],
        2,
        Beside::Nothing,
        "nothing A1;idle;",
    ),
    // B1 waits for A1, and is computed after it.
    (
        &[("A1", "=1+1"), ("B1", "=SUM(A1:A1)+A1")],
        &["B1", "A1", "A1"],
        6,
        Beside::Nothing,
        "stale B1 A1 0;done A1;nothing A1;done B1;idle;idle;",
    ),
    // Two cells that name each other, and one that leads into them: each is computed, as circular.
    (
        &[("A1", "=B1"), ("B1", "=A1"), ("C1", "=A1")],
        &["C1", "A1", "B1"],
        5,
        Beside::Nothing,
        "stale C1 A1 0;done A1;done B1;done C1;idle;",
    ),
    // A cell that another seat holds: its clean word is what was read, and what was found.
    (
        &[("A1", "=1")],
        &["A1"],
        3,
        Beside::Held,
        "busy A1 0 0;busy A1 0 0;idle;",
    ),
    // The edit's mark comes once the office has told of no entry: it is newer than what the turn works from.
    (
        &[("A1", "=1")],
        &["A1"],
        3,
        Beside::Edit,
        "later A1 1 0;later A1 1 0;idle;",
    ),
];

#[test]
fn turns_answer_what_they_meet(rt: HostRuntime) -> Result<(), Fail> {
    for &(fields, names, count, beside, wanted) in &ROWS {
        let told = answers(&rt, rt.alloc(), fields, names, count, beside)?;
        assert_eq!(rt; told.as_str(), wanted);
    }
    Ok(())
}
