use sheet_refs::{Cell, Range};
use std::marker::Model;

/// An id with its range.
#[derive(Clone, Copy, Drop)]
pub struct Item {
    /// The id.
    pub id: usize,
    /// Its range.
    pub range: Range,
}

impl Model for Item {
    ghost use Rattle.range_index.specs.Entries.{Entry};

    ghost Value = { Entry };

    ghost view = { λ i. record { id = i.id; range = i.range } };

    ghost inverse = { λ e. record { id = e.id; range = e.range } };
}

/// The id 0 with the range A1:A1, for places of a list that have no entry.
impl Default for Item {
    fn default() -> Item {
        let first = Cell::new(1, 1).unwrap();
        Item {
            id: 0,
            range: Range::of(first, first),
        }
    }
}
