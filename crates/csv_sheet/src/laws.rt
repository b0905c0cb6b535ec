ghost use Rattle.csv_sheet.specs.Results.{OneSheetResult, SomeResult};

/// What holds of the texts of sheets, each of any length: a text gives one thing, a sheet or a refusal, and
/// none gives nothing.
pub fn load_laws()
    ensures one { OneSheetResult }
    ensures some { SomeResult }
{}
