ghost use Rattle.std.specs.Prelude.{◌≡◌, ◌∷◌, [], ◌≤◌, length, map};
ghost use Rattle.std.specs.Prelude.{All, IfOk, MatchBool, MatchOption};
ghost use Rattle.std.specs.List.Sorted.{IsStrictlyIncreasing, IsNonDecreasing};
ghost use Rattle.sheet_model.specs.Edits.{AreOfDistinctCells, AreWritten, HasName, IsEdit, named_place};

use crate::change::Change;
use arrayvec::ArrayVec;
use sheet_refs::{Cell, MAX_COLS, MAX_ROWS, Memory, Sizes};
use std::alloc::Global;
use std::marker::Model;

/// The most changes of an edit.
pub const MAX_CHANGES: usize = 1_024;

/// What is done to a sheet in one step: a list of 1 to 1,024 changes, no two of them of one cell.
#[derive(Drop)]
pub struct Edit {
    pub(crate) changes: Vec<Change>,
}

impl Model for Edit {
    ghost use Rattle.std.specs.Coded.{codes};
    ghost use Rattle.formula_syntax.specs.TreeCode.{tree_code};
    ghost use Rattle.sheet_model.specs.Edits.{EditValue, IsWholeEdit};

    ghost Value = { EditValue };

    ghost coded = { Prim.hlevel (codes, tree_code (Prim.hlevel codes)) };

    ghost view = { λ e. e.changes.items };

    ghost invariant = { λ e. IsWholeEdit e.changes.items };
}

impl Edit {
    /// An edit of one change.
    pub fn one(alloc: Global, change: Change) -> Result<Edit, Memory>
        ensures { IfOk result (λ edit. edit ≡ change ∷ []) }
    {
        let mut changes = Vec::with_capacity(alloc, 1)?;
        changes.push(change)?;
        Ok(Edit { changes })
    }

    /// An edit of some changes, in their order. None exactly where there is none, where there are more than 1,024, or
    /// where two are of one cell. It takes no memory, and the time of a sort of as many numbers.
    pub fn of(changes: Vec<Change>) -> Option<Edit>
        ensures { MatchOption result (¬ IsEdit changes.items) (λ edit. edit ≡ changes.items) }
    {
        let count = changes.len();
        if count == 0 || count > MAX_CHANGES {
            return None;
        }
        if !are_of_distinct_cells(&changes) {
            return None;
        }
        Some(Edit { changes })
    }

    /// The changes, in order.
    pub fn changes(&self) -> &[Change]
        ensures changes { result.now ≡ self.now }
        ensures edit { IsEdit self.now }
        ensures written { AreWritten self.now }
    {
        &self.changes
    }

    /// An equal edit. Formulas are shared, so that it takes no time by their lengths.
    pub fn copy(&self) -> Result<Edit, Memory>
        ensures { IfOk result (λ edit. edit ≡ self.now) }
    {
        let changes = copy_changes(*self.changes.allocator(), &self.changes)?;
        Ok(Edit { changes })
    }
}

// Equal changes, in their order.
fn copy_changes(alloc: Global, changes: &[Change]) -> Result<Vec<Change>, Memory>
    ensures { IfOk result (λ copies. copies.items ≡ changes.now) }
{
    let mut copies = Vec::with_capacity(alloc, changes.len())?;
    for change in changes {
        let copy = change.copy()?;
        copies.push(copy)?;
    }
    Ok(copies)
}

// The place of a cell among all cells that have names, row by row.
fn place_of_name(cell: Cell) -> usize
    ensures place { result ≡ named_place cell }
    ensures named { HasName cell }
{
    let sizes = Sizes {
        rows: MAX_ROWS,
        cols: MAX_COLS,
    };
    sizes.place(cell)
}

// The places of the cells that some changes change.
fn changed_places(changes: &[Change]) -> ArrayVec<usize, MAX_CHANGES>
    requires { length changes.now ≤ 1024 }
    ensures places { result.items ≡ map (λ change. named_place change.cell) changes.now }
    ensures named { All (λ change. HasName change.cell) changes.now }
    ensures written { AreWritten changes.now }
{
    let mut places = ArrayVec::new();
    for change in changes {
        places.push(place_of_name(change.cell));
    }
    places
}

// Whether each of some numbers that don't fall is greater than the one before.
fn rises(numbers: &[usize]) -> bool
    requires { IsNonDecreasing numbers.now }
    ensures { MatchBool result (IsStrictlyIncreasing numbers.now)
        (¬ IsStrictlyIncreasing numbers.now) }
{
    for place in 1..numbers.len() {
        if numbers[place - 1] == numbers[place] {
            return false;
        }
    }
    true
}

// Whether no two changes are of one cell.
fn are_of_distinct_cells(changes: &[Change]) -> bool
    requires { length changes.now ≤ 1024 }
    ensures distinct { MatchBool result (AreOfDistinctCells changes.now)
        (¬ AreOfDistinctCells changes.now) }
    ensures written { AreWritten changes.now }
{
    let mut places = changed_places(changes);
    let sorted = places.as_mut_slice();
    sorted.sort_unstable();
    rises(sorted)
}
