#![tactic(auto)]

ghost use Rattle.std.specs.Prelude.{◌≡◌, ◌+◌, ◌*◌};
ghost use Rattle.mark_words.specs.Rules.{place_count};

use crate::tables::MarkTable;
use mark_core::Subject;

/// The words of one table, shared by threads.
#[derive(Drop)]
pub struct Marks<S: Subject> {
    pub(crate) table: MarkTable<S>,
    ghost no_slots: { table.shared.table_id.slots ≡ 0 },
    ghost sized: { table.shared.table_id.words ≡ 3 * place_count table.shared.key + 1 },
}
