ghost use Rattle.std.specs.Prelude.{◌≡◌, ◌≤◌, length, OnOk};
ghost use Rattle.sheet_refs.specs.Sizes.{cell_count, place_of};
ghost use Rattle.mark_words.specs.Tokens.{IsSeatOf, subject_of, places_of, log_of};
ghost use Rattle.sheet_model.specs.Sheets.{content_value};
ghost use Rattle.sheet_model.specs.Values.{content_references};
ghost use Rattle.recalc_workers.specs.Inputs.{HasListed};
ghost use Rattle.recalc_workers.specs.Seats.{HasOnlyRead};

use crate::gathering::read_inputs;
use crate::inputs::{InputList, Unread};
use mark_core::Subject;
use mark_words::{Marks, Seat};
use sheet_model::Content;
use sheet_refs::{Memory, Sizes};
use std::sync::Wait;
use std::thread::yield_now;

/// Reads the inputs that a content names into the list, and reads them again where one is out of date. Those that the
/// seat knows as clean are so only until a later entry marks them.
pub(crate) fn read_all<R: Wait, S: Subject>(
    rt: &R,
    marks: &Marks<S>,
    seat: &mut Seat<S>,
    sizes: Sizes,
    content: &Content,
    count: u64,
    list: &mut InputList,
) -> Result<(), Memory>
    requires table { IsSeatOf marks.now seat.old }
    requires places { places_of marks.now ≡ cell_count sizes }
    requires small { cell_count sizes ≤ 1048576 }
    requires count { count ≡ length (log_of seat.old) }
    ensures same { IsSeatOf marks.now seat.new }
    ensures only { HasOnlyRead seat.old seat.new }
    ensures listed { OnOk result (HasListed sizes (content_references (content_value content.now))
        (λ cell. S.worth (subject_of marks.now) (log_of seat.old) (place_of sizes cell)) list.new) }
{
    for _ in rt.forever() {
        match read_inputs(marks, seat, sizes, content, count, list) {
            Ok(()) => return Ok(()),
            Err(Unread::Memory) => return Err(Memory),
            Err(Unread::Outdated(_)) => yield_now(),
        }
    }
    unreachable!()
}
