ghost use Rattle.std.specs.Prelude.{◌≡◌, ◌≤◌, ◌<◌, ◌+◌, ◌*◌, ℕ};
ghost use Rattle.std.specs.Prelude.{false, length, IsTrue, IfOk, OnOk};
ghost use Rattle.sheet_refs.specs.Sizes.{is_inside, cell_count, place_of};
ghost use Rattle.mark_words.specs.Tokens.{IsSeatOf, subject_of, view_of, log_of};
ghost use Rattle.sheet_model.specs.Logs.{after};
ghost use Rattle.sheet_model.specs.Sheets.{IsSheet, content_of, content_value};
ghost use Rattle.recalc_workers.specs.Desks.{seat_of, wants_memory};
ghost use Rattle.recalc_workers.specs.Settling.{HasSettledShare, IsCovered, IsLevelOf, KnowsPart, KnowsPlace};
ghost use Rattle.recalc_workers.specs.Settling.{MaySettle, WorksAt};

use crate::cell_words::{CellWords, Source};
use crate::clearing::clear;
use crate::crossing::entries_cross;
use crate::desk::Desk;
use crate::evaluating::evaluate;
use crate::gates::Gate;
use crate::gathering::place_of_cell;
use crate::read_again::read_all;
use crate::working::is_of_sheet;
use mark_words::Marks;
use sheet_model::{Content, SheetSubject, log_laws};
use sheet_refs::{Cell, Memory, Sizes};
use std::sync::Wait;

/// The cells of a level, in a sheet of these sizes, after so many entries.
#[derive(Clone, Copy)]
pub(crate) struct Level<'a> {
    pub(crate) sizes: Sizes,
    pub(crate) cells: &'a [Cell],
    pub(crate) count: u64,
}

/// The code of what a content gives over the values of the cell's inputs, after the entries that the desk's seat knows.
fn word_from_inputs<R: Wait, S: SheetSubject>(
    rt: &R,
    marks: &Marks<S>,
    level: Level<'_>,
    cell: Cell,
    content: &Content,
    desk: &mut Desk<S>,
) -> Result<u64, Memory>
    requires table { IsSeatOf marks.now (seat_of desk.old) }
    requires sizes { level.sizes ≡ (S.opening (subject_of marks.now)).sizes }
    requires small { cell_count level.sizes ≤ 1048576 }
    requires count { level.count ≡ length (log_of (seat_of desk.old)) }
    requires inside { IsTrue (is_inside level.sizes cell) }
    requires is_sheet { IsSheet (after (S.opening (subject_of marks.now)) (log_of (seat_of desk.old))) }
    requires content { content_value content.now
        ≡ content_of (after (S.opening (subject_of marks.now)) (log_of (seat_of desk.old))) cell }
    ensures table { IsSeatOf marks.now (seat_of desk.new) }
    ensures works { WorksAt desk.old desk.new }
    ensures word { IfOk result (λ word. S.worth (subject_of marks.now)
        (log_of (seat_of desk.old)) (place_of level.entry.sizes cell) ≡ word) }
{
    entries_cross();
    log_laws();
    let Level { sizes, count, .. } = level;
    read_all(
        rt,
        marks,
        &mut desk.seat,
        sizes,
        content,
        count,
        &mut desk.inputs,
    )?;
    is_of_sheet(marks);
    Ok(evaluate(sizes, content, &desk.inputs, &mut desk.stack))
}

/// The code of the cell's value after the entries that the desk's seat knows.
fn word_at<R: Wait, S: SheetSubject, W: CellWords>(
    rt: &R,
    marks: &Marks<S>,
    words: &W,
    level: Level<'_>,
    cell: Cell,
    desk: &mut Desk<S>,
) -> Result<u64, Memory>
    requires table { IsSeatOf marks.now (seat_of desk.old) }
    requires sizes { level.sizes ≡ (S.opening (subject_of marks.now)).sizes }
    requires small { cell_count level.sizes ≤ 1048576 }
    requires count { level.count ≡ length (log_of (seat_of desk.old)) }
    requires inside { IsTrue (is_inside level.sizes cell) }
    requires covered { IsCovered (S.opening (subject_of marks.now)) (W.sheet words.now) (W.covers words.now)
        (view_of (seat_of desk.old)) cell }
    ensures table { IsSeatOf marks.now (seat_of desk.new) }
    ensures works { WorksAt desk.old desk.new }
    ensures word { IfOk result (λ word. S.worth (subject_of marks.now)
        (log_of (seat_of desk.old)) (place_of level.entry.sizes cell) ≡ word) }
{
    entries_cross();
    log_laws();
    is_of_sheet(marks);
    match words.source(cell) {
        Source::Inputs(content) => word_from_inputs(rt, marks, level, cell, content, desk),
        Source::Word(word) => Ok(word),
    }
}

/// Clears one cell at the desk.
fn settle_cell<R: Wait, S: SheetSubject, W: CellWords, G: Gate>(
    rt: &R,
    marks: &Marks<S>,
    words: &W,
    level: Level<'_>,
    cell: Cell,
    desk: &mut Desk<S>,
    gate: &G,
) -> Result<(), Memory>
    requires table { IsSeatOf marks.now (seat_of desk.old) }
    requires sizes { level.sizes ≡ (S.opening (subject_of marks.now)).sizes }
    requires small { cell_count level.sizes ≤ 1048576 }
    requires count { level.count ≡ length (log_of (seat_of desk.old)) }
    requires inside { IsTrue (is_inside level.sizes cell) }
    requires covered { IsCovered (S.opening (subject_of marks.now)) (W.sheet words.now) (W.covers words.now)
        (view_of (seat_of desk.old)) cell }
    ensures table { IsSeatOf marks.now (seat_of desk.new) }
    ensures works { WorksAt desk.old desk.new }
    ensures known { OnOk result (KnowsPlace (S.touches (subject_of marks.now))
        (view_of (seat_of desk.new)) (place_of level.entry.sizes cell)) }
{
    entries_cross();
    let word = word_at(rt, marks, words, level, cell, desk)?;
    let place = place_of_cell(level.sizes, cell);
    clear(
        rt,
        marks,
        &mut desk.seat,
        gate,
        cell,
        place,
        word,
        level.count,
    );
    Ok(())
}

/// Clears the cells of the level from one place up to another, in order, and remembers at the desk whether it wanted
/// memory, which ends it.
fn settle_part<R: Wait, S: SheetSubject, W: CellWords, G: Gate>(
    rt: &R,
    marks: &Marks<S>,
    words: &W,
    level: Level<'_>,
    part: (usize, usize),
    desk: &mut Desk<S>,
    gate: &G,
)
    requires level { IsLevelOf (S.opening (subject_of marks.now)) level.sizes level.cells.now }
    requires ready { MaySettle marks.now level.cells.now level.count
        (IsCovered (S.opening (subject_of marks.now)) (W.sheet words.now) (W.covers words.now)) desk.old }
    requires part { part.1 ≤ length level.cells.now }
    ensures table { IsSeatOf marks.now (seat_of desk.new) }
    ensures works { WorksAt desk.old desk.new }
    ensures known { wants_memory desk.new ≡ false
        → KnowsPart (S.touches (subject_of marks.now)) level.entry.sizes
        (view_of (seat_of desk.new)) level.entry.cells.now part.0 part.1 }
{
    let (start, end) = part;
    for place in start..end {
        let cell = level.cells[place];
        let Ok(()) = settle_cell(rt, marks, words, level, cell, desk, gate) else {
            desk.wants_memory = true;
            return;
        };
    }
    desk.wants_memory = false;
}

/// The first and the end of the share with this number, of shares of one size, of so many cells.
fn share(cells: usize, size: usize, number: usize) -> (usize, usize)
    ensures within { result.1 ≤ cells }
    ensures whole { (k : ℕ) → number * size ≤ k → k < number * size + size → k < cells
        → (result.0 ≤ k) × (k < result.1) }
{
    let Some(first) = number.checked_mul(size) else {
        return (cells, cells);
    };
    (first, first.saturating_add(size).min(cells))
}

/// Clears the share of the level with this number, of shares of one size.
pub(crate) fn settle_share<R: Wait, S: SheetSubject, W: CellWords, G: Gate>(
    rt: &R,
    marks: &Marks<S>,
    words: &W,
    level: Level<'_>,
    size: usize,
    number: usize,
    desk: &mut Desk<S>,
    gate: &G,
)
    requires level { IsLevelOf (S.opening (subject_of marks.now)) level.sizes level.cells.now }
    requires ready { MaySettle marks.now level.cells.now level.count
        (IsCovered (S.opening (subject_of marks.now)) (W.sheet words.now) (W.covers words.now)) desk.old }
    ensures { HasSettledShare marks.now (S.touches (subject_of marks.now)) level.entry.sizes
        level.entry.cells.now size number desk.old desk.new }
{
    let part = share(level.cells.len(), size, number);
    settle_part(rt, marks, words, level, part, desk, gate);
}
