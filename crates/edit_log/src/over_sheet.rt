use mark_core::Subject;
use sheet_model::{Entry, Sheet, SheetSubject};
use std::marker::Model;
use std::snapshot::Snapshot;

/// What the marks of a sheet are about: the sheet with which its log begins. Its places are the cells, row by row from
/// 0. An entry touches its cell and all cells that depend on it in the sheet after the entries before.
#[derive(Drop)]
pub struct OverSheet {
    held: Option<Sheet>,
    opening: Snapshot<Sheet>,
}

impl Model for OverSheet {
    ghost use Rattle.std.specs.Coded.{codes};
    ghost use Rattle.formula_syntax.specs.TreeCode.{tree_code};
    ghost use Rattle.sheet_model.specs.Sheets.{SheetValue};

    ghost Value = { SheetValue };

    ghost coded = { Prim.hlevel (codes, tree_code (Prim.hlevel codes)) };

    ghost view = { λ s. s.opening.value };
}

impl OverSheet {
    ghost use Rattle.std.specs.Prelude.{◌≡◌};

    /// The subject of an opening sheet, which it holds.
    pub fn new(opening: Sheet) -> OverSheet
        ensures { result ≡ opening }
    {
        let seen = Snapshot::of(&opening);
        OverSheet {
            held: Some(opening),
            opening: seen,
        }
    }

    /// The subject of a sheet as it stands. It holds nothing of the sheet, which may change then.
    pub fn of(opening: &Sheet) -> OverSheet
        ensures { result ≡ opening.now }
    {
        OverSheet {
            held: None,
            opening: Snapshot::of(opening),
        }
    }
}

impl Subject for OverSheet {
    type Entry = Entry;

    ghost use Rattle.sheet_refs.specs.Sizes.{cell_count};
    ghost use Rattle.edit_log.specs.Touches.{place_worth, TouchesPlace};
    ghost use Rattle.edit_log.specs.Kept.{place_untouched};

    ghost places = { λ opening. cell_count opening.sizes };

    ghost worth = { place_worth };

    ghost touches = { TouchesPlace };

    ghost untouched = { λ opening log entry place _ spared.
        place_untouched opening log entry place spared };
}

impl SheetSubject for OverSheet {
    ghost use Rattle.edit_log.specs.Kept.{over_sheet};

    ghost opening = { λ opening. opening };

    ghost of_sheet = { over_sheet };
}
