ghost use Rattle.std.specs.Prelude.{◌≡◌, ◌≤◌, true};
ghost use Rattle.mark_core.specs.Marks.{IsPrefix};
ghost use Rattle.mark_words.specs.Tokens.{IsSeatOf, doing_of, own_steps, view_of, log_of, seen_of, is_editor};
ghost use Rattle.recalc_workers.specs.Seats.{HasDoneNothing, Keeps};
ghost use Rattle.recalc_workers.specs.Settling.{KeepsEditor, KnowsNoLess};
ghost use Rattle.live_sheet.specs.Edits.{HasHeard, HasLearned};

use mark_core::Subject;
use mark_words::{Marks, Seat};

/// The editor's seat takes over what another seat knows, which keeps its own. Its log goes on from that of the other
/// seat, and it has seen no fewer edits.
pub(crate) fn hear<S: Subject>(marks: &Marks<S>, editor: &mut Seat<S>, seat: &mut Seat<S>)
    requires table { IsSeatOf marks.now editor.old }
    requires editor { is_editor editor.old ≡ true }
    requires seat { IsSeatOf marks.now seat.old }
    ensures table { IsSeatOf marks.now editor.new }
    ensures editor { KeepsEditor editor.old editor.new }
    ensures heard { HasHeard editor.old seat.old editor.new }
    ensures seat { IsSeatOf marks.now seat.new }
    ensures kept { doing_of seat.new ≡ doing_of seat.old }
    ensures no_step { own_steps seat.new ≡ own_steps seat.old }
    ensures keeps { Keeps seat.old seat.new }
    ensures idle { HasDoneNothing seat.old seat.new }
    ensures same { log_of seat.new ≡ log_of seat.old }
    ensures log { IsPrefix (log_of seat.old) (log_of editor.new) }
    ensures seen { seen_of seat.old ≤ seen_of editor.new }
{
    marks.meet(editor, seat);
}

/// A seat, of which the editor's seat has heard, takes over what that one knows, which keeps its own: it has its log
/// then.
pub(crate) fn learn<S: Subject>(marks: &Marks<S>, seat: &mut Seat<S>, editor: &mut Seat<S>)
    requires seat { IsSeatOf marks.now seat.old }
    requires table { IsSeatOf marks.now editor.old }
    requires log { IsPrefix (log_of seat.old) (log_of editor.old) }
    ensures seat { IsSeatOf marks.now seat.new }
    ensures learned { HasLearned seat.old editor.old seat.new }
    ensures keeps { Keeps seat.old seat.new }
    ensures idle { HasDoneNothing seat.old seat.new }
    ensures knows { KnowsNoLess (view_of editor.old) (view_of seat.new) }
    ensures table { IsSeatOf marks.now editor.new }
    ensures kept { doing_of editor.new ≡ doing_of editor.old }
    ensures no_step { own_steps editor.new ≡ own_steps editor.old }
    ensures editor { KeepsEditor editor.old editor.new }
{
    marks.meet(seat, editor);
}
