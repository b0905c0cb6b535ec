use std::marker::Brand;
use std::sync::ledger::Ledger;

/// What the parts of one live sheet belong to. Each type of a live sheet has it as a parameter, so that what lies
/// behind the lock is known to belong to what lies outside. Its ledger counts the accepted edits, and has one part more
/// than there are clients.
pub trait Naming: Ledger {
    ghost use Rattle.std.specs.Prelude.{ℕ};
    ghost use Rattle.atomic_table.specs.Seated.{TableId};
    ghost use Rattle.sheet_model.specs.Sheets.{SheetValue};

    /// The table of words.
    ghost words: { TableId };

    /// The queue of jobs.
    ghost queue: { TableId };

    /// The sheet before all edits.
    ghost opening: { SheetValue };

    /// The number of clients.
    ghost clients: { ℕ };
}

impl Naming for Brand {
    ghost use Rattle.live_sheet.specs.Names.{no_table, no_sheet};

    ghost words = { no_table };

    ghost queue = { no_table };

    ghost opening = { no_sheet };

    ghost clients = { 0 };
}
