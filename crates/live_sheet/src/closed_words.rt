ghost use Rattle.std.specs.Prelude.{◌≡◌, ◌≤◌, ◌<◌, ◌∷◌, [], ℕ, Some};
ghost use Rattle.std.specs.Prelude.{length, slice_get, All, vec_capacity};
ghost use Rattle.mark_core.specs.Marks.{IsPrefix};
ghost use Rattle.mark_words.specs.Closed.{AreLegal};
ghost use Rattle.mark_words.specs.Tokens.{IsSeatOf, subject_of, places_of, view_of, log_of, edits_of};
ghost use Rattle.mark_words.specs.Tokens.{closed_places, closed_place};
ghost use Rattle.recalc_workers.specs.Settling.{KnowsPlace};
ghost use Rattle.live_sheet.specs.Stale.{IsFree};

use mark_core::Subject;
use mark_words::{Marks, Seat, Words};

/// The values of all places of closed words, in order.
fn list_values<S: Subject>(words: &Words<S>, places: u32, values: Vec<u64>) -> Vec<u64>
    requires places { places ≡ closed_places words.now }
    requires none { values.items ≡ [] }
    requires room { places ≤ vec_capacity values }
    ensures count { length result.items ≡ places }
    ensures each { (place : ℕ) → place < places
        → slice_get result.items place ≡ Some (closed_place words.now place).value }
{
    let mut values = values;
    for place in 0..places {
        values.push_reserved(words.value(place));
    }
    values
}

/// Closes the words of a table of which the editor's seat knows each place as clean: lists the values of all places, in
/// order, which are their worths after the log of that seat. What the other seats know is a part of that log, and each
/// read of any of the seats is legal over it.
pub(crate) fn close_words<S: Subject>(
    marks: Marks<S>,
    editor: Seat<S>,
    others: Vec<Seat<S>>,
    places: u32,
    values: Vec<u64>,
) -> Vec<u64>
    requires table { IsSeatOf marks editor }
    requires free { IsFree editor }
    requires tables { All (λ other. IsSeatOf marks other) others.items }
    requires places { places ≡ places_of marks }
    requires known { (place : ℕ) → place < places
        → KnowsPlace (S.touches (subject_of marks)) (view_of editor) place }
    requires none { values.items ≡ [] }
    requires room { places ≤ vec_capacity values }
    ensures count { length result.items ≡ places }
    ensures each { (place : ℕ) → place < places
        → slice_get result.items place ≡ Some (S.worth (subject_of marks) (log_of editor) place) }
    ensures prefixes { All (λ other. IsPrefix (log_of other) (log_of editor)) others.items }
    ensures legal { AreLegal S.worth S.touches marks editor (editor ∷ others.items) }
    ensures edits { (edits_of editor).log ≡ log_of editor }
{
    let Ok(words) = marks.close(editor, others) else {
        unreachable!()
    };
    list_values(&words, places, values)
}
