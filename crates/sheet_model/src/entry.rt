use crate::edit::Edit;
use sheet_refs::Memory;

/// The most entries of a log, and so the most edits of a script.
pub const MAX_ENTRIES: usize = 1_048_576;

/// An edit with the client that made it, as a log keeps it.
#[derive(Drop)]
pub struct Entry {
    /// The client, counted from 0.
    pub client: u32,
    /// What it did.
    pub edit: Edit,
}

impl Entry {
    ghost use Rattle.std.specs.Prelude.{◌≡◌, IfOk};

    /// An equal entry. A formula is shared, so that it takes no time by its length.
    pub fn copy(&self) -> Result<Entry, Memory>
        ensures { IfOk result (λ entry. entry ≡ self.now) }
    {
        let edit = self.edit.copy()?;
        Ok(Entry {
            client: self.client,
            edit,
        })
    }
}
