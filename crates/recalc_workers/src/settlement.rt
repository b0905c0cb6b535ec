ghost use Rattle.mark_words.specs.Tokens.{subject_of};
ghost use Rattle.recalc_workers.specs.SettleLaws.{CellsStayKnown, DesksStand, EditorStands};
ghost use Rattle.recalc_workers.specs.SettleLaws.{KnownCellsAreKnownInputs, KnownCellsHaveTheirMarks};

use mark_words::{Marks, Seat};
use sheet_model::SheetSubject;

/// What the words on settling come to. A cell that is known as clean has its mark: the number of the last entry that
/// touches it, or 0. Cells that the editor's seat knew before a settling it knows after it, so levels that are settled
/// one after the other are all known in the end, and cells that are known are known inputs of others. The editor's
/// seat and each desk have what they had, by the places in their lists.
pub fn settle_laws<S: SheetSubject>(_marks: &Marks<S>, _seat: &Seat<S>)
    ensures known { KnownCellsHaveTheirMarks (S.touches (subject_of _marks.now)) }
    ensures inputs { KnownCellsAreKnownInputs (S.touches (subject_of _marks.now)) }
    ensures stay { CellsStayKnown _marks.now _seat.now (S.touches (subject_of _marks.now)) }
    ensures editor { EditorStands _marks.now _seat.now }
    ensures desks { DesksStand _marks.now _seat.now }
{}
