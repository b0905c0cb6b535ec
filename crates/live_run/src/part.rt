use edit_script::Command;
use sheet_model::Report;

/// What a client is to do, and its reports before it has looked.
#[derive(Drop)]
pub(crate) struct Part {
    pub(crate) commands: Vec<Command>,
    pub(crate) reports: Vec<Report>,
}
