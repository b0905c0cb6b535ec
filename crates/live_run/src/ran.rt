use live_sheet::Closed;
use sheet_model::Report;

/// What a run leaves.
#[derive(Drop)]
pub(crate) struct Ran {
    /// What its live sheet leaves.
    pub(crate) closed: Closed,
    /// The reports of each client, in the order of the clients.
    pub(crate) reports: Vec<Vec<Report>>,
}
