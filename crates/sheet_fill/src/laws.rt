ghost use Rattle.sheet_fill.specs.FillLaws.{FilledCellsHoldCopies, FilledRunsAreOneEdge};
ghost use Rattle.sheet_fill.specs.FillLaws.{FillsLeaveOtherCells, FilledRunsHaveTheirPairs};
ghost use Rattle.sheet_fill.specs.FillLaws.{FilledSheetsAreOneEdge, ReferencesGoAlongRuns};
ghost use Rattle.sheet_fill.specs.FilledTexts.{TextsOfEditsAreTheirScripts, TextsOfFillsAreTheirScripts};
ghost use Rattle.sheet_fill.specs.FillRows.{CrossedEdgeRow, CrossedRow, DownRow, FixedRow, GrowingEdgeRow};
ghost use Rattle.sheet_fill.specs.FillRows.{GrowingRow, ItselfRow, LostRow, LostWithinRow, ManyRow};
ghost use Rattle.sheet_fill.specs.MovedReferences.{CallsAreLostByTheirPlaces, CopiesKeepDistances};
ghost use Rattle.sheet_fill.specs.MovedReferences.{EndsAreLostPastTheNames, FormulasMoveTheirReferences};
ghost use Rattle.sheet_fill.specs.MovedReferences.{LostReferencesAreErrors, OperatorsStay, OtherCallsStay};
ghost use Rattle.sheet_fill.specs.MovedReferences.{ReferencesAreLostByTheirEnds, ReferencesMoveByTheirEnds};
ghost use Rattle.sheet_fill.specs.MovedReferences.{ShiftedFormulasAdd};
ghost use Rattle.sheet_fill.specs.ReadBack.{ContentsAreReadBack, FormulasAreReadBack};
ghost use Rattle.sheet_fill.specs.ReadBack.{FormulasThatTheEditionLacks};

use taco_graph::join_laws;

/// What holds of fills: each other cell of a range of the sheet that is filled holds a copy of the source, and nothing
/// else changes, the source neither. From each cell of a run that is filled from its head the sheet refers to just the
/// ranges of the head's references, moved as far as the cell is from the head, where none of them is lost so far; and
/// a moved reference has the smallest range with both of its ends, each moved so unless it is fixed.
///
/// Where a run that is filled with one reference has an edge, edges that stand for exactly its pairs, of which no two
/// can be joined, are this one edge: the pairs of the reference along the run, and those of the run in a sheet where it
/// was filled.
///
/// The text of an edit that fills a range of a sheet, where it is a script over the same sheet, is one step of the
/// client `main` with this edit, and brings no label, if the source is no label and no formula with a function that the
/// sheet's edition lacks. So is the text of each edit of cells that have names to such contents, where they can be
/// written.
pub fn fill_laws()
    ensures copies { FilledCellsHoldCopies }
    ensures others { FillsLeaveOtherCells }
    ensures along { ReferencesGoAlongRuns }
    ensures pairs { FilledRunsHaveTheirPairs }
    ensures one_edge { FilledRunsAreOneEdge }
    ensures sheet_edge { FilledSheetsAreOneEdge }
    ensures texts { TextsOfEditsAreTheirScripts }
    ensures fill_texts { TextsOfFillsAreTheirScripts }
{
    join_laws();
}

/// What a copy of a formula is: each part of a reference without a `$` is as far from the copy as it was from the
/// source, and one behind a `$` is the same. An end is lost exactly where its sum leaves the names, and a reference
/// where one of its ends is; else it names the smallest range with both ends moved, in as many ends as before, each row
/// and each column with its `$`.
///
/// A formula that loses no reference has them moved, in calls within calls too, and is else the same; shifted again
/// without a loss it has the ranges of the sum. A lost reference is `#REF!`, and so is a call as a whole that loses one
/// where a reference has to stand; each other call and each operator stays over what its parts become.
pub fn copied_laws()
    ensures distances { CopiesKeepDistances }
    ensures lost_ends { EndsAreLostPastTheNames }
    ensures lost_references { ReferencesAreLostByTheirEnds }
    ensures references { ReferencesMoveByTheirEnds }
    ensures formulas { FormulasMoveTheirReferences }
    ensures sums { ShiftedFormulasAdd }
    ensures errors { LostReferencesAreErrors }
    ensures lost_calls { CallsAreLostByTheirPlaces }
    ensures calls { OtherCallsStay }
    ensures operators { OperatorsStay }
{}

/// Which contents of a sheet are read back from their printed text. A number, a truth, an error and an empty cell are.
/// A formula is exactly where the sheet's edition has each of its functions and its text never has more than 64
/// parentheses open. One with a function that the edition lacks is read as `#NAME?`. A label isn't, since its text
/// is printed between quotes.
pub fn read_back_laws()
    ensures contents { ContentsAreReadBack }
    ensures formulas { FormulasAreReadBack }
    ensures lacking { FormulasThatTheEditionLacks }
{}

/// Fills that were worked out by hand, from the text of the formula to the lines of the edit, and the edges of two
/// filled runs, one of which has none.
pub fn fill_row_laws()
    ensures down { DownRow }
    ensures growing { GrowingRow }
    ensures lost { LostRow }
    ensures itself { ItselfRow }
    ensures many { ManyRow }
    ensures fixed { FixedRow }
    ensures crossed { CrossedRow }
    ensures lost_within { LostWithinRow }
    ensures growing_edge { GrowingEdgeRow }
    ensures crossed_edge { CrossedEdgeRow }
{}
