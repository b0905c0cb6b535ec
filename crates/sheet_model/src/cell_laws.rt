ghost use Rattle.sheet_model.specs.Changes.{ChangesFillTheirCell, ChangesLeaveOtherCells};
ghost use Rattle.sheet_model.specs.Edits.{EditsFillTheirCells, EditsLeaveOtherCells};
ghost use Rattle.sheet_model.specs.Edits.{OrderOfChangesIsFree, ReplacedContentsUndoEdits};
ghost use Rattle.sheet_model.specs.Fields.{WritesOneContent, RefusedWritesNone};
ghost use Rattle.sheet_model.specs.Logs.{OneMoreEntryIsOneMoreEdit, LogsKeepSizes, LogsKeepLabels};
ghost use Rattle.sheet_model.specs.Logs.{LogsKeepEdition, LogsKeepSheets};
ghost use Rattle.sheet_model.specs.Seen.{CodesShowTheirValues, WorthsShowTheirValues};
ghost use Rattle.sheet_model.specs.Seen.{NewerMarksAreShown, StaleMarksAreShown};
ghost use Rattle.sheet_model.specs.Sheets.{SheetsAreTheirCells, LabelsAreInTheirTable};
ghost use Rattle.sheet_model.specs.Sheets.{ConstantsAreInRange, FormulasCanBeRead};

/// What holds of fields: in an edition, over a table of labels, a text writes at most one content, and a text that is
/// refused writes none.
pub fn field_laws()
    ensures one { WritesOneContent }
    ensures refused { RefusedWritesNone }
{}

/// What holds of sheets as contracts see them: one is told by its edition, its sizes, its labels and what stands in
/// its cells. A label that stands in a cell is in the table, a constant is a value in range other than `#CIRC!`, and
/// a formula can be read.
pub fn sheet_laws()
    ensures told { SheetsAreTheirCells }
    ensures labels { LabelsAreInTheirTable }
    ensures constants { ConstantsAreInRange }
    ensures formulas { FormulasCanBeRead }
{}

/// What holds of sheets after changes and edits: a change fills its cell and leaves every other cell as it was. After
/// an edit each changed cell holds what its change says, and every other cell what it held; the order of the changes
/// means nothing; and what the edit replaced, put back, leaves the sheet as it was.
pub fn edit_laws()
    ensures change { ChangesFillTheirCell }
    ensures beside { ChangesLeaveOtherCells }
    ensures here { EditsFillTheirCells }
    ensures others { EditsLeaveOtherCells }
    ensures order { OrderOfChangesIsFree }
    ensures undone { ReplacedContentsUndoEdits }
{}

/// What holds of sheets after logs of edits: a log with one more entry makes one more edit, and no log changes the
/// edition, the sizes or the labels of a sheet. Where what each entry puts into its cells may stand beside the
/// labels, the sheet after the log is one.
pub fn log_laws()
    ensures more { OneMoreEntryIsOneMoreEdit }
    ensures edition { LogsKeepEdition }
    ensures sizes { LogsKeepSizes }
    ensures labels { LogsKeepLabels }
    ensures sheets { LogsKeepSheets }
{}

/// What a board shows of what was seen of a cell's words: of the code of a value that value, so of the worth of a
/// cell's place the value that the cell has after the log; and of a mark its number.
pub fn board_laws()
    ensures codes { CodesShowTheirValues }
    ensures worths { WorthsShowTheirValues }
    ensures stale { StaleMarksAreShown }
    ensures newer { NewerMarksAreShown }
{}
