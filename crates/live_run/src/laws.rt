ghost use Rattle.edit_script.specs.Scripts.{ScriptValue};
ghost use Rattle.sheet_model.specs.Edits.{EditValue};
ghost use Rattle.sheet_model.specs.Sheets.{SheetValue};
ghost use Rattle.sheet_refs.specs.Cells.{Corners};
ghost use Rattle.window_text.specs.Transcripts.{TranscriptValue};
ghost use Rattle.live_run.specs.Laws.{ReportsCoverOwnEdits};
ghost use Rattle.live_run.specs.Plain.{ClientsAreTheScripts, LogIsTheScripts, ReportsAreOfTheirLooks};
ghost use Rattle.live_run.specs.Plain.{NumbersAreWithin, NumbersNeverFall, ValuesAreOfOneThread};
ghost use Rattle.live_run.specs.Plain.{FirmReportsShowValues, LaterMarksTouch, OtherMarksAreLast};
ghost use Rattle.live_run.specs.Plain.{ShownIsMarkedLater, ClosingIsAfterTheLog};
ghost use Rattle.live_run.specs.Plain.{EditsOfARow, LooksOfARow, NumbersOfARow};

/// What holds of every legal run: a report tells of exactly those of its client's edits that stand before its look, and
/// of none behind it.
pub fn legal_laws()
    ensures { ReportsCoverOwnEdits }
{}

/// What a legal run tells, by places in its lists and by numbers. The clients are the script's, each with a report for
/// each of its looks, of its kind and its window; the log has each client's edits in order, and no others; numbers are
/// within the log and never fall for a client; each value is the one that one thread computes after as many entries as
/// the report's number, and a firm report shows nothing else; a mark is that of the last of these entries that touches
/// the cell, or of a later one that does; a cell whose value a client was shown is marked later for a later entry
/// alone; and the closing sheet is the one after the whole log.
pub fn plain_laws()
    ensures clients { (s : SheetValue) (c : ScriptValue) (t : TranscriptValue) → ClientsAreTheScripts s c t }
    ensures log { (s : SheetValue) (c : ScriptValue) (t : TranscriptValue) → LogIsTheScripts s c t }
    ensures looks { (s : SheetValue) (c : ScriptValue) (t : TranscriptValue) → ReportsAreOfTheirLooks s c t }
    ensures within { (s : SheetValue) (c : ScriptValue) (t : TranscriptValue) → NumbersAreWithin s c t }
    ensures rise { (s : SheetValue) (c : ScriptValue) (t : TranscriptValue) → NumbersNeverFall s c t }
    ensures values { (s : SheetValue) (c : ScriptValue) (t : TranscriptValue) → ValuesAreOfOneThread s c t }
    ensures firm { (s : SheetValue) (c : ScriptValue) (t : TranscriptValue) → FirmReportsShowValues s c t }
    ensures later { (s : SheetValue) (c : ScriptValue) (t : TranscriptValue) → LaterMarksTouch s c t }
    ensures last { (s : SheetValue) (c : ScriptValue) (t : TranscriptValue) → OtherMarksAreLast s c t }
    ensures again { (s : SheetValue) (c : ScriptValue) (t : TranscriptValue) → ShownIsMarkedLater s c t }
    ensures closing { (s : SheetValue) (c : ScriptValue) (t : TranscriptValue) → ClosingIsAfterTheLog s c t }
    ensures edits { (a b c : EditValue) (v w : Corners) → EditsOfARow a b c v w }
    ensures asked { (a b c : EditValue) (v w : Corners) → LooksOfARow a b c v w }
    ensures numbers { (a b c : EditValue) (v w : Corners) → NumbersOfARow a b c v w }
{}
