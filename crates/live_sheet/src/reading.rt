ghost use Rattle.std.specs.Prelude.{◌≡◌, ◌<◌};
ghost use Rattle.mark_words.specs.Tokens.{IsSeatOf, places_of, doing_of, own_steps};
ghost use Rattle.live_sheet.specs.Looks.{after_read, loads_made, ShowsLoads};
ghost use Rattle.live_sheet.specs.Steps.{StepsAre};

use crate::loads::Loads;
use edit_log::OverSheet;
use mark_core::{Seen, shown};
use mark_words::{Marks, Seat};
use sheet_model::Shown;
use value_core::{Value, decode};

/// Reads the place, by three loads.
pub(crate) fn read_place(marks: &Marks<OverSheet>, seat: &mut Seat<OverSheet>, place: u32) -> Loads
    requires table { IsSeatOf marks.now seat.old }
    requires there { place < places_of marks.now }
    ensures same { IsSeatOf marks.now seat.new }
    ensures doing { doing_of seat.new
        ≡ record (doing_of seat.old) { view = after_read (doing_of seat.old).view place result } }
    ensures steps { StepsAre (own_steps seat.old) (loads_made place result) (own_steps seat.new) }
{
    let clean = marks.read_clean(seat, place);
    let word = marks.read_value(seat, place);
    let mark = marks.read_mark(seat, place);
    Loads { clean, word, mark }
}

/// What a board shows of these loads at this number of commits. A word that is no value's code shows as an empty cell;
/// no cell ever has one.
pub(crate) fn show(number: u64, loads: Loads) -> Shown
    ensures { ShowsLoads number loads result }
{
    match shown(number, loads.clean, loads.word, loads.mark) {
        Seen::Value(word) => Shown::Value(decode(word).unwrap_or(Value::Empty)),
        Seen::Stale(mark) => Shown::Stale(mark),
        Seen::Newer(mark) => Shown::Newer(mark),
    }
}
