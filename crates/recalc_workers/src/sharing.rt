ghost use Rattle.std.specs.Prelude.{◌≡◌, ◌≤◌, true, false};
ghost use Rattle.mark_words.specs.Tokens.{IsSeatOf, view_of, seen_of, is_editor};
ghost use Rattle.recalc_workers.specs.Desks.{seat_of, wants_memory};
ghost use Rattle.recalc_workers.specs.Seats.{HasDoneNothing};
ghost use Rattle.recalc_workers.specs.Settling.{AreDesksOf, Each, IsDeskAfter, IsLent, KnowsOf};
ghost use Rattle.recalc_workers.specs.Settling.{KeepsDesk, KeepsEditor, KnowsNoLess, KnowsOfAll};
ghost use Rattle.recalc_workers.specs.Settling.{NoneWantsMemory};

use crate::desk::Desk;
use mark_core::Subject;
use mark_words::{Marks, Seat};

/// Lets the desk know what the editor's seat knows: both meet, and then the desk has the editor's log.
pub fn tell_desk<S: Subject>(marks: &Marks<S>, editor: &mut Seat<S>, desk: &mut Desk<S>)
    requires table { IsSeatOf marks.now editor.old }
    requires editor { is_editor editor.old ≡ true }
    requires desk { IsSeatOf marks.now (seat_of desk.old) }
    ensures table { IsSeatOf marks.now editor.new }
    ensures editor { KeepsEditor editor.old editor.new }
    ensures desk { IsSeatOf marks.now (seat_of desk.new) }
    ensures kept { KeepsDesk desk.old desk.new }
    ensures idle { HasDoneNothing (seat_of desk.old) (seat_of desk.new) }
    ensures seen { seen_of (seat_of desk.old) ≤ seen_of editor.old }
    ensures knows { KnowsNoLess (view_of editor.old) (view_of (seat_of desk.new)) }
{
    marks.meet(editor, &mut desk.seat);
    marks.meet(&mut desk.seat, editor);
}

/// Lets each of the desks know what the editor's seat knows.
pub(crate) fn lend_all<S: Subject>(marks: &Marks<S>, editor: &mut Seat<S>, desks: &mut [Desk<S>])
    requires table { IsSeatOf marks.now editor.old }
    requires editor { is_editor editor.old ≡ true }
    requires desks { AreDesksOf marks.now desks.old }
    ensures table { IsSeatOf marks.now editor.new }
    ensures editor { KeepsEditor editor.old editor.new }
    ensures desks { Each (IsLent marks.now (view_of editor.old)) desks.old desks.new }
{
    for place in 0..desks.len() {
        tell_desk(marks, editor, &mut desks[place]);
    }
}

/// Lets the editor's seat know what the desk knows, and answers whether a thread wanted memory there.
fn gather<S: Subject>(marks: &Marks<S>, editor: &mut Seat<S>, desk: &mut Desk<S>) -> bool
    requires table { IsSeatOf marks.now editor.old }
    requires editor { is_editor editor.old ≡ true }
    requires desk { IsSeatOf marks.now (seat_of desk.old) }
    ensures table { IsSeatOf marks.now editor.new }
    ensures editor { KeepsEditor editor.old editor.new }
    ensures desk { IsSeatOf marks.now (seat_of desk.new) }
    ensures kept { KeepsDesk desk.old desk.new }
    ensures knows { KnowsOf desk.old (view_of editor.new) }
    ensures wants { result ≡ wants_memory desk.old }
{
    marks.meet(editor, &mut desk.seat);
    desk.wants_memory
}

/// Lets the editor's seat know what the desks know, and answers whether a thread wanted memory at one of them.
pub(crate) fn gather_all<S: Subject>(
    marks: &Marks<S>,
    editor: &mut Seat<S>,
    desks: &mut [Desk<S>],
) -> bool
    requires table { IsSeatOf marks.now editor.old }
    requires editor { is_editor editor.old ≡ true }
    requires desks { AreDesksOf marks.now desks.old }
    ensures table { IsSeatOf marks.now editor.new }
    ensures editor { KeepsEditor editor.old editor.new }
    ensures desks { Each (IsDeskAfter marks.now) desks.old desks.new }
    ensures knows { KnowsOfAll desks.old (view_of editor.new) }
    ensures wants { result ≡ false → NoneWantsMemory desks.old }
{
    let mut wants = false;
    for place in 0..desks.len() {
        wants |= gather(marks, editor, &mut desks[place]);
    }
    wants
}
