// What holds of the texts.
ghost use Rattle.window_text.specs.Told.{TextsTellOneRun};

/// The text of a live run tells one run: its log, the names of its clients, the reports of each, and the sizes and the
/// values of its closing sheet, where a label is told by its text and the client of an entry by its name. The names are
/// one word each; what else is asked of a run, each one keeps that can be printed.
pub fn text_laws()
    ensures one_run { TextsTellOneRun }
{}
