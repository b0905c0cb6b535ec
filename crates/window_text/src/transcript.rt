use sheet_model::{Entry, Report, Sheet};

/// What a live run comes to.
#[derive(Drop)]
pub struct Transcript {
    /// The clients, by name.
    pub names: Vec<String>,
    /// The edits of all clients in one order, each with the place of its client among the names.
    pub log: Vec<Entry>,
    /// The closing sheet.
    pub sheet: Sheet,
    /// The codes of the values of all its cells, row by row.
    pub values: Vec<u64>,
    /// The reports of each client, in the order of the names.
    pub reports: Vec<Vec<Report>>,
}
