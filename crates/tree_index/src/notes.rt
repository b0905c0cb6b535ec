// What is noted of each id.
use sheet_refs::Range;
use std::marker::Model;

/// Where an entry stands: in the leaf under a key, or in the list of those that are still to come into the tree.
#[derive(Clone, Copy, Drop)]
pub(crate) enum Place {
    Leaf(usize),
    Late,
}

/// The range of an id, and where it stands.
#[derive(Clone, Copy, Drop)]
pub(crate) struct Note {
    pub(crate) range: Range,
    pub(crate) place: Place,
}

impl Model for Note {
    ghost use Rattle.tree_index.specs.Trees.{Note as NoteValue};

    ghost Value = { NoteValue };

    ghost view = { λ n. record { range = n.range; place = n.place } };

    ghost inverse = { λ v. record { range = v.range; place = v.place } };
}
