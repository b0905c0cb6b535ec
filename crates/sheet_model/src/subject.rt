use crate::entry::Entry;
use mark_core::Subject;

/// The subject of a sheet that entries change: what the marks of such a sheet are about.
pub trait SheetSubject: Subject<Entry = Entry> {
    ghost use Rattle.sheet_model.specs.Sheets.{SheetValue};
    ghost use Rattle.sheet_model.specs.Logs.{IsOfSheet};

    /// The sheet before all entries.
    ghost opening: { Self → SheetValue };

    /// The places are the sheet's cells, numbered row by row from 0, and the worth of a place after some
    /// entries is the code of the value that its cell has after them.
    ghost of_sheet: { (subject : Self)
        → IsOfSheet (opening subject) (Self.places subject) (Self.worth subject) };
}
