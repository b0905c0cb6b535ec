ghost use Rattle.std.specs.Prelude.{◌≤◌, ◌≡◌, vec_len, vec_capacity};

use crate::machine::Pending;
use formula_syntax::MAX_FIELD;
use sheet_refs::Memory;
use std::alloc::Global;

/// The most nodes of a formula: it has no more than its text has bytes.
const MAX_NODES: usize = MAX_FIELD;

/// Room for the evaluation of one formula after another: as many places as a formula has nodes.
#[derive(Drop)]
pub struct Stack {
    pub(crate) pending: Vec<Pending>,
    ghost room: { 8192 ≤ vec_capacity pending },
    ghost idle: { vec_len pending ≡ 0 },
}

impl Stack {
    /// A stack with room for every formula. It takes 24 bytes for each of 8,192 places.
    pub fn new(alloc: Global) -> Result<Stack, Memory> {
        let pending = Vec::with_capacity(alloc, MAX_NODES)?;
        Ok(Stack { pending })
    }
}
