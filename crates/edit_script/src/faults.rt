ghost use Rattle.std.specs.Prelude.{◌≡◌, ◌⊎◌, ◌<◌, ◌≤◌, length};
ghost use Rattle.std.specs.Prelude.{Contains, MatchBool, MatchOption, IsTrue};
ghost use Rattle.sheet_refs.specs.Sizes.{is_inside};
ghost use Rattle.edit_script.specs.Batches.{changed_cells};
ghost use Rattle.edit_script.specs.Progress.{brought, names_of, IsWithinLimits, IsPlainlyAllowed, MayChange};
ghost use Rattle.edit_script.specs.Progress.{IsBatchFault, IsChangeFault, IsWindowFault};
ghost use Rattle.edit_script.specs.Saying.{line_value};
ghost use Rattle.edit_script.specs.Scripts.{IsLineFault, IsMisplaced, IsMisplacedIn, IsPartOutside};
ghost use Rattle.edit_script.specs.Scripts.{IsLargeWindow, ground_of, line_number};
ghost use Rattle.edit_script.specs.declared.refused.ScriptRefused.TheVariants as refused;

use crate::batch::Batch;
use crate::clients::client_place;
use crate::line::Line;
use crate::progress::Progress;
use crate::refused::ScriptRefused;
use sheet_model::{MAX_CHANGES, MAX_ENTRIES, Sheet};
use sheet_refs::{Cell, Range, Sizes};

/// The most clients and the most edits of a script.
const MAX_CLIENTS: usize = 32;

const MAX_EDITS: u32 = MAX_ENTRIES as u32;

/// The most cells of one window, and of all windows together.
const MAX_WINDOW: u64 = 65_536;

const MAX_WINDOWS: u64 = 4_194_304;

impl Progress {
    /// The first cause for which a line is refused, whatever a cell is to hold.
    pub(crate) fn fault(&self, line: &Line<'_>, number: u32, sheet: &Sheet) -> Option<ScriptRefused>
        requires { IsWithinLimits self.now }
        ensures { MatchOption result
            (IsPlainlyAllowed (ground_of sheet.now) (brought self.now) (line_value line.now))
            (λ why. (line_number why ≡ number)
            × IsLineFault (ground_of sheet.now) (brought self.now) (line_value line.now) why) }
    {
        if self.is_misplaced(line) {
            return Some(ScriptRefused::BadLine(number));
        }
        self.line_fault(line, number, sheet)
    }

    // The first cause for which a line in its place is refused, whatever a cell is to hold.
    fn line_fault(&self, line: &Line<'_>, number: u32, sheet: &Sheet) -> Option<ScriptRefused>
        requires sound { IsWithinLimits self.now }
        requires placed { ¬ IsMisplaced (brought self.now) (line_value line.now) }
        ensures { MatchOption result
            (IsPlainlyAllowed (ground_of sheet.now) (brought self.now) (line_value line.now))
            (λ why. (line_number why ≡ number)
            × IsLineFault (ground_of sheet.now) (brought self.now) (line_value line.now) why) }
    {
        match line {
            Line::Client(name) => self.client_fault(name, number),
            Line::Set(cell, _) => self.change_fault(*cell, number, sheet.sizes()),
            Line::Clear(cell) => self.change_fault(*cell, number, sheet.sizes()),
            Line::Look(range) => self.window_fault(*range, number, sheet.sizes()),
            Line::Firm(range) => self.window_fault(*range, number, sheet.sizes()),
            Line::Batch => self.edits_fault(number),
            Line::Skip | Line::Work(_) | Line::End => None,
        }
    }

    // Whether a line may not stand in its place: within a batch, or outside of one.
    fn is_misplaced(&self, line: &Line<'_>) -> bool
        ensures { MatchBool result (IsMisplaced (brought self.now) (line_value line.now))
            (¬ IsMisplaced (brought self.now) (line_value line.now)) }
    {
        match &self.batch {
            Some(batch) => is_misplaced_in(batch, line),
            None => matches!(line, Line::End),
        }
    }

    // Whether a client is one too many.
    fn client_fault(&self, name: &str, number: u32) -> Option<ScriptRefused>
        requires { IsWithinLimits self.now }
        ensures { MatchOption result
            ((length (names_of self.now) < 32) ⊎ Contains (names_of self.now) name.now)
            (λ why. (why ≡ refused.TooManyClients number) × (32 ≤ length (names_of self.now))
            × ¬ Contains (names_of self.now) name.now) }
    {
        if self.names.len() < MAX_CLIENTS || client_place(&self.names, name).is_some() {
            return None;
        }
        Some(ScriptRefused::TooManyClients(number))
    }

    // Whether a change is of a cell outside the sheet, or of one that the batch changes, or one too many.
    fn change_fault(&self, cell: Cell, number: u32, sizes: Sizes) -> Option<ScriptRefused>
        ensures { MatchOption result
            (IsTrue (is_inside sizes cell) × MayChange (brought self.now) cell)
            (IsChangeFault sizes (brought self.now) cell number) }
    {
        if !sizes.holds(cell) {
            return Some(ScriptRefused::OutOfSheet(number));
        }
        match &self.batch {
            Some(batch) => batch_fault(batch, cell, number),
            None => self.edits_fault(number),
        }
    }

    // Whether an edit is one too many.
    fn edits_fault(&self, number: u32) -> Option<ScriptRefused>
        ensures { MatchOption result (self.now.edits < 1048576)
            (λ why. (why ≡ refused.TooManyEdits number) × (1048576 ≤ self.now.edits)) }
    {
        if self.edits >= MAX_EDITS {
            return Some(ScriptRefused::TooManyEdits(number));
        }
        None
    }

    // Whether a window lies in part outside the sheet, or is too large.
    fn window_fault(&self, range: Range, number: u32, sizes: Sizes) -> Option<ScriptRefused>
        requires { IsWithinLimits self.now }
        ensures { MatchOption result
            ((¬ IsPartOutside sizes range) × ¬ IsLargeWindow (brought self.now) range)
            (λ why. IsWindowFault sizes (brought self.now) range number why) }
    {
        if !sizes.holds(range.tail()) {
            return Some(ScriptRefused::OutOfSheet(number));
        }
        if range.cells() > MAX_WINDOW || self.cells + range.cells() > MAX_WINDOWS {
            return Some(ScriptRefused::WindowTooLarge(number));
        }
        None
    }
}

// Whether a line may not stand within a batch of these changes.
fn is_misplaced_in(batch: &Batch, line: &Line<'_>) -> bool
    ensures { MatchBool result (IsMisplacedIn (changed_cells batch.now) (line_value line.now))
        (¬ IsMisplacedIn (changed_cells batch.now) (line_value line.now)) }
{
    match line {
        Line::Skip | Line::Set(_, _) | Line::Clear(_) => false,
        Line::End => batch.count() == 0,
        Line::Client(_) | Line::Look(_) | Line::Firm(_) | Line::Work(_) | Line::Batch => true,
    }
}

// Whether a batch of these changes changes the cell, or has as many changes as may be.
fn batch_fault(batch: &Batch, cell: Cell, number: u32) -> Option<ScriptRefused>
    ensures { MatchOption result
        ((¬ Contains (changed_cells batch.now) cell) × (length batch.now < 1024))
        (IsBatchFault batch.now cell number) }
{
    if batch.has(cell) {
        return Some(ScriptRefused::CellTwice(number));
    }
    if batch.count() >= MAX_CHANGES {
        return Some(ScriptRefused::BatchTooLarge(number));
    }
    None
}
