ghost use Rattle.std.specs.Prelude.{◌≡◌, ◌≤◌, length, true};
ghost use Rattle.mark_words.specs.Tokens.{IsSeatOf, is_editor, log_of, seen_of};
ghost use Rattle.recalc_workers.specs.Seats.{HasDoneNothing, Keeps};
ghost use Rattle.recalc_trial.specs.Offices.{KeepsEditor};

use mark_core::Subject;
use mark_words::{Marks, Seat};

/// Lets the seat know what the editor's seat knows: both meet each other.
pub(crate) fn lend<S: Subject>(marks: &Marks<S>, editor: &mut Seat<S>, seat: &mut Seat<S>)
    requires table { IsSeatOf marks.now editor.old }
    requires editor { is_editor editor.old ≡ true }
    requires other { IsSeatOf marks.now seat.old }
    ensures table { IsSeatOf marks.now editor.new }
    ensures editor { KeepsEditor editor.old editor.new }
    ensures other { IsSeatOf marks.now seat.new }
    ensures keeps { Keeps seat.old seat.new }
    ensures idle { HasDoneNothing seat.old seat.new }
    ensures log { log_of seat.new ≡ log_of editor.old }
    ensures covers { seen_of seat.old ≤ length (log_of editor.old) }
{
    let _ = marks.see(editor);
    marks.meet(editor, seat);
    marks.meet(seat, editor);
}
