ghost use Rattle.std.specs.Prelude.{◌≡◌, ◌≢◌, ◌≤◌, ◌<◌, ◌+◌};
ghost use Rattle.std.specs.Prelude.{length, IsTrue, IsNone};
ghost use Rattle.std.specs.Prelude.{IfSome};
ghost use Rattle.sheet_refs.specs.Sizes.{is_inside, cell_count, place_of};
ghost use Rattle.mark_core.specs.Marks.{IsLastMark};
ghost use Rattle.mark_core.specs.Permissions.{MayClaim};
ghost use Rattle.mark_words.specs.Tokens.{IsSeatOf, subject_of, places_of, view_of, log_of};
ghost use Rattle.sheet_model.specs.Logs.{after, IsOfSheet};
ghost use Rattle.sheet_model.specs.Values.{IsInput};
ghost use Rattle.recalc_workers.specs.Desks.{seat_of, hand_of};
ghost use Rattle.recalc_workers.specs.Offices.{words_for, IsTaskAt};
ghost use Rattle.recalc_workers.specs.Inputs.{IsInputUnread, IsOutdated, WasUnread};
ghost use Rattle.recalc_workers.specs.Seats.{HoldsNothing};
ghost use Rattle.recalc_workers.specs.Turns.{ComesTo, HasMetAt, HasReadAs, IsAnswerAt, IsDue};

use crate::crossing::entries_cross;
use crate::desk::Desk;
use crate::evaluating::evaluate;
use crate::finishing::finish_at;
use crate::gates::Gate;
use crate::gathering::{place_of_cell, read_inputs};
use crate::inputs::Unread;
use crate::office::Office;
use crate::reading::{Reading, read_place};
use crate::task::Task;
use crate::turns::Turn;
use mark_words::{Marks, Seat};
use sheet_model::SheetSubject;
use sheet_refs::{Cell, Sizes};
use std::sync::Wait;
use value_core::{ErrorKind, Value, code};

/// The places of the words are the cells of the subject's sheet, and their worths those of its values.
pub(crate) fn is_of_sheet<S: SheetSubject>(_marks: &Marks<S>)
    ensures { IsOfSheet (S.opening (subject_of _marks.now))
        (S.places (subject_of _marks.now)) (S.worth (subject_of _marks.now)) }
{}

/// What a read of the cell itself answers, where the turn computes from so many entries; None where the cell is to be
/// computed.
fn answer_at(read: Reading, cell: Cell, met: u64) -> Option<Turn>
    ensures answer { IfSome result (IsAnswerAt cell read met) }
    ensures due { IsNone result → IsDue read met }
{
    let Reading { clean, mark, .. } = read;
    if clean.is_for(mark) {
        return Some(Turn::Nothing(cell));
    }
    if mark > met {
        return Some(Turn::Later { cell, mark, met });
    }
    if clean.held {
        return Some(Turn::Busy {
            cell,
            seen: clean,
            found: clean,
        });
    }
    None
}

/// Computes the cell as it was read: Done, or Busy where it was claimed or computed meanwhile.
fn finish<S: SheetSubject, G: Gate>(
    marks: &Marks<S>,
    seat: &mut Seat<S>,
    gate: &G,
    cell: Cell,
    place: u32,
    read: Reading,
    word: u64,
) -> Turn
    requires table { IsSeatOf marks.now seat.old }
    requires there { place < places_of marks.now }
    requires place { place ≡ place_of (S.opening (subject_of marks.now)).sizes cell }
    requires free { HoldsNothing seat.old }
    requires claim { MayClaim (view_of seat.old) place read.clean }
    requires stale { read.clean.upto ≢ read.mark + 1 }
    requires worth { S.worth (subject_of marks.now) (log_of seat.old) place ≡ word }
    requires last { IsLastMark (S.touches (subject_of marks.now)) (log_of seat.old) place read.mark }
    ensures same { IsSeatOf marks.now seat.new }
    ensures comes { ComesTo (S.opening (subject_of marks.now)) seat.old cell
        (λ start. HasReadAs start seat.old place read) seat.new result }
{
    match finish_at(marks, seat, gate, cell, place, read, word) {
        Ok(()) => Turn::Done(cell),
        Err(found) => Turn::Busy {
            cell,
            seen: read.clean,
            found,
        },
    }
}

/// The rest of a turn that read an input as out of date: where the cell is on a cycle it is computed as circular, by
/// the entries that the seat knows then.
fn on_stale<S: SheetSubject, O: Office<S>, G: Gate, R: Wait>(
    rt: &R,
    marks: &Marks<S>,
    seat: &mut Seat<S>,
    sizes: Sizes,
    office: &mut O,
    gate: &G,
    cell: Cell,
    input: Cell,
    met: u64,
) -> Turn
    requires table { IsSeatOf marks.now seat.old }
    requires words { O.words office.old ≡ words_for marks.now }
    requires opening { O.opening office.old ≡ S.opening (subject_of marks.now) }
    requires sizes { sizes ≡ (S.opening (subject_of marks.now)).sizes }
    requires small { cell_count sizes ≤ 1048576 }
    requires inside { IsTrue (is_inside sizes cell) }
    requires free { HoldsNothing seat.old }
    requires met { met ≡ length (log_of seat.old) }
    requires input { IsInput (after (S.opening (subject_of marks.now)) (log_of seat.old)) cell input }
    ensures words { O.words office.new ≡ O.words office.old }
    ensures opening { O.opening office.new ≡ O.opening office.old }
    ensures same { IsSeatOf marks.now seat.new }
    ensures comes { ComesTo (S.opening (subject_of marks.now)) seat.old cell
        (λ start. HasMetAt start seat.old met × IsOutdated start seat.old (place_of sizes input) met)
        seat.new result }
{
    is_of_sheet(marks);
    let Ok(on_cycle) = office.circular(rt, cell, seat) else {
        return Turn::Memory(cell);
    };
    if !on_cycle {
        return Turn::Stale { cell, input, met };
    }
    let place = place_of_cell(sizes, cell);
    let read = read_place(marks, seat, place);
    if let Some(turn) = answer_at(read, cell, met) {
        return turn;
    }
    let word = code(Value::Error(ErrorKind::Circ));
    finish(marks, seat, gate, cell, place, read, word)
}

/// The rest of a turn that couldn't read each input of its cell.
fn on_unread<S: SheetSubject, O: Office<S>, G: Gate, R: Wait>(
    rt: &R,
    marks: &Marks<S>,
    seat: &mut Seat<S>,
    sizes: Sizes,
    office: &mut O,
    gate: &G,
    cell: Cell,
    unread: &Unread,
    met: u64,
) -> Turn
    requires table { IsSeatOf marks.now seat.old }
    requires words { O.words office.old ≡ words_for marks.now }
    requires opening { O.opening office.old ≡ S.opening (subject_of marks.now) }
    requires sizes { sizes ≡ (S.opening (subject_of marks.now)).sizes }
    requires small { cell_count sizes ≤ 1048576 }
    requires inside { IsTrue (is_inside sizes cell) }
    requires free { HoldsNothing seat.old }
    requires met { met ≡ length (log_of seat.old) }
    requires input { IsInputUnread (after (S.opening (subject_of marks.now)) (log_of seat.old)) cell unread.now }
    ensures words { O.words office.new ≡ O.words office.old }
    ensures opening { O.opening office.new ≡ O.opening office.old }
    ensures same { IsSeatOf marks.now seat.new }
    ensures comes { ComesTo (S.opening (subject_of marks.now)) seat.old cell
        (λ start. HasMetAt start seat.old met × WasUnread sizes start seat.old met unread.now)
        seat.new result }
{
    match unread {
        Unread::Memory => Turn::Memory(cell),
        Unread::Outdated(input) => {
            on_stale(rt, marks, seat, sizes, office, gate, cell, *input, met)
        }
    }
}

/// The turn from its task on: reads the cell and its inputs, evaluates, and only then claims.
pub(crate) fn compute<S: SheetSubject, O: Office<S>, G: Gate, R: Wait>(
    rt: &R,
    desk: &mut Desk<S>,
    marks: &Marks<S>,
    sizes: Sizes,
    office: &mut O,
    gate: &G,
    cell: Cell,
    task: Task,
) -> Turn
    requires table { IsSeatOf marks.now (seat_of desk.old) }
    requires words { O.words office.old ≡ words_for marks.now }
    requires opening { O.opening office.old ≡ S.opening (subject_of marks.now) }
    requires sizes { sizes ≡ (S.opening (subject_of marks.now)).sizes }
    requires small { cell_count sizes ≤ 1048576 }
    requires inside { IsTrue (is_inside sizes cell) }
    requires task { IsTaskAt (S.opening (subject_of marks.now)) (seat_of desk.old) cell task }
    ensures words { O.words office.new ≡ O.words office.old }
    ensures opening { O.opening office.new ≡ O.opening office.old }
    ensures same { IsSeatOf marks.now (seat_of desk.new) }
    ensures hand { hand_of desk.new ≡ hand_of desk.old }
    ensures comes { ComesTo (S.opening (subject_of marks.now)) (seat_of desk.old) cell
        (λ start. HasMetAt start (seat_of desk.old) task.length) (seat_of desk.new) result }
{
    entries_cross();
    is_of_sheet(marks);
    let met = task.length;
    let place = place_of_cell(sizes, cell);
    let read = read_place(marks, &mut desk.seat, place);
    if let Some(turn) = answer_at(read, cell, met) {
        return turn;
    }
    let content = &task.content;
    let list = &mut desk.inputs;
    if let Err(unread) = read_inputs(marks, &mut desk.seat, sizes, content, met, list) {
        let seat = &mut desk.seat;
        return on_unread(rt, marks, seat, sizes, office, gate, cell, &unread, met);
    }
    let word = evaluate(sizes, content, &desk.inputs, &mut desk.stack);
    finish(marks, &mut desk.seat, gate, cell, place, read, word)
}
