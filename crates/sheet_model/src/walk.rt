ghost use Rattle.std.specs.Prelude.{◌≡◌, ◌≢◌, ◌+◌, ◌<◌, ◌≤◌, []};
ghost use Rattle.std.specs.Prelude.{map, set, slice_get, length, IfOk};
ghost use Rattle.std.specs.Prelude.{OnOk, Some, IsTrue, IsFalse};
ghost use Rattle.sheet_refs.specs.Sizes.{place_of, cell_count};
ghost use Rattle.sheet_model.specs.Values.{AreValues, HaveCodes};
ghost use Rattle.sheet_model.specs.Sheets.{content_value, IsWithinSheet};
ghost use Rattle.sheet_model.specs.Walks.{IsStoredWalk, IsIdle, StaysSeen, SeenBelow, SeenWithin, IsWaiting};
ghost use Rattle.sheet_model.specs.Walks.{IsClosing, IsNextToOpen, IsDone, cells_left, closed_state};
ghost use Rattle.sheet_model.specs.Walks.{walk_states, content_there, IsKnownAt, KnowsOneMore, StaysKnown};
ghost use Rattle.sheet_model.specs.Words.{AreWords, Open, Unseen};

use crate::content::Content;
use crate::eval::{add_content, evaluate, first_words};
use crate::parts::Part;
use crate::ready::is_ready;
use crate::sheet::Sheet;
use crate::words::look;
use formula_eval::Stack;
use sheet_refs::{Cell, Memory, Range};
use std::alloc::{AllocError, Global};
use value_core::CodeWord;

/// An open cell, and where its parts begin among all that is left to look at.
#[derive(Clone, Copy)]
pub(crate) struct Frame {
    cell: Cell,
    first: usize,
}

/// What is known of each cell, as a word; the open cells, each of which waits for the value of the
/// one above it; what is left to look at of the ranges that they name, that of the newest cell
/// last; and perhaps a list of the cells for which others waited.
#[derive(Drop)]
pub(crate) struct Walk {
    pub(crate) words: Vec<u64>,
    pub(crate) frames: Vec<Frame>,
    pub(crate) parts: Vec<Part>,
    /// The cells for whose values others waited, where they are to be listed.
    pub(crate) found: Option<Vec<Cell>>,
    stack: Stack,
}

// Lists a cell whose value was found, where such cells are to be listed.
fn list(found: &mut Option<Vec<Cell>>, cell: Cell) -> Result<(), AllocError> {
    match found {
        Some(found) => {
            found.push(cell)?;
            Ok(())
        }
        None => Ok(()),
    }
}

// The same of all open cells.
fn list_open(found: &mut Option<Vec<Cell>>, frames: &[Frame]) -> Result<(), AllocError> {
    for frame in frames {
        list(found, frame.cell)?;
    }
    Ok(())
}

// What stands in the cell at a place.
fn content_at(sheet: &Sheet, place: usize) -> &Content
    requires { place < cell_count sheet.now.sizes }
    ensures { content_value result.now ≡ content_there sheet.now place }
{
    &sheet.contents()[place]
}

impl Walk {
    /// A walk that knows the constants of a sheet.
    pub(crate) fn new(alloc: Global, sheet: &Sheet) -> Result<Walk, Memory>
        ensures walk { IfOk result (λ walk. IsStoredWalk sheet.now walk) }
        ensures idle { IfOk result (λ walk. IsIdle walk) }
    {
        let words = first_words(alloc, sheet.contents())?;
        let stack = Stack::new(alloc)?;
        Ok(Walk {
            words,
            frames: Vec::new(alloc),
            parts: Vec::new(alloc),
            found: None,
            stack,
        })
    }

    /// Marks each open cell as circular.
    fn close(&mut self, sheet: &Sheet)
        requires words { AreWords self.old.words.items }
        requires closing { IsClosing sheet.now (walk_states self.old) self.old.frames.items }
        ensures words { AreWords self.new.words.items }
        ensures states { walk_states self.new ≡ map closed_state (walk_states self.old) }
        ensures frames { self.new.frames.items ≡ [] }
    {
        while let Some(frame) = self.frames.pop() {
            self.words[sheet.place(frame.cell)] = CodeWord::CIRCULAR.get();
        }
    }

    /// Gives up the open cells: it is as if none of them had been looked at. It takes a write for each of them.
    pub(crate) fn give_up(&mut self, sheet: &Sheet)
        requires sound { IsStoredWalk sheet.now self.old }
        ensures sound { IsStoredWalk sheet.now self.new }
        ensures idle { IsIdle self.new }
        ensures parts { self.new.parts.items ≡ [] }
        ensures known { StaysKnown self.old self.new }
    {
        while let Some(frame) = self.frames.pop() {
            self.words[sheet.place(frame.cell)] = CodeWord::UNSEEN.get();
        }
        self.parts.clear();
    }

    /// Opens a cell: all that it names in the rectangle is left to look at.
    fn open(&mut self, sheet: &Sheet, cell: Cell) -> Result<(), AllocError>
        requires sound { IsStoredWalk sheet.now self.old }
        requires opening { IsNextToOpen sheet.now (walk_states self.old) self.old.frames.items cell }
        ensures sound { OnOk result (IsStoredWalk sheet.now self.new) }
        ensures states { walk_states self.new
            ≡ set (walk_states self.old) (place_of sheet.now.sizes cell) Open }
        ensures less { OnOk result (cells_left self.new < cells_left self.old) }
    {
        let first = self.parts.len();
        self.words[sheet.place(cell)] = CodeWord::OPEN.get();
        self.frames.push(Frame { cell, first })?;
        add_content(sheet.sizes(), sheet.content(cell), &mut self.parts)
    }

    /// Settles the cell at a place without opening it, where evaluation is found to read past all that it names, and
    /// says whether it was. Mostly the cells that a formula names stand before it, and then no frame and no part is
    /// needed.
    fn settle_at_once(&mut self, sheet: &Sheet, place: usize) -> bool
        requires sound { IsStoredWalk sheet.now self.old }
        requires place { place < cell_count sheet.now.sizes }
        requires unseen { slice_get (walk_states self.old) place ≡ Some Unseen }
        ensures sound { IsStoredWalk sheet.now self.new }
        ensures frames { self.new.frames.items ≡ self.old.frames.items }
        ensures settled { IsTrue result
            → KnowsOneMore sheet.now (walk_states self.old) (walk_states self.new) place }
        ensures left { IsFalse result → walk_states self.new ≡ walk_states self.old }
    {
        let content = content_at(sheet, place);
        if !is_ready(sheet.sizes(), &self.words, content) {
            return false;
        }
        let word = evaluate(sheet.sizes(), &self.words, content, &mut self.stack);
        self.words[place] = word;
        true
    }

    /// Settles or opens the cell for which the newest open cell waits; where it is open or circular, all open
    /// cells lead into a cycle, and are closed.
    fn enter(&mut self, sheet: &Sheet, cell: Cell) -> Result<(), AllocError>
        requires sound { IsStoredWalk sheet.now self.old }
        requires waiting { IsWaiting sheet.now (walk_states self.old) self.old.frames.items cell }
        ensures sound { OnOk result (IsStoredWalk sheet.now self.new) }
        ensures seen { OnOk result (StaysSeen self.old self.new) }
        ensures known { OnOk result (StaysKnown self.old self.new) }
        ensures less { OnOk result (cells_left self.new < cells_left self.old) }
    {
        let place = sheet.place(cell);
        if self.words[place] == CodeWord::UNSEEN.get() {
            if self.settle_at_once(sheet, place) {
                return list(&mut self.found, cell);
            }
            return self.open(sheet, cell);
        }
        list_open(&mut self.found, &self.frames)?;
        self.close(sheet);
        self.parts.clear();
        Ok(())
    }

    /// Settles the newest open cell, of which nothing is left to look at.
    fn finish(&mut self, sheet: &Sheet)
        requires sound { IsStoredWalk sheet.now self.old }
        requires done { IsDone self.old }
        ensures sound { IsStoredWalk sheet.now self.new }
        ensures seen { StaysSeen self.old self.new }
        ensures known { StaysKnown self.old self.new }
        ensures less { ¬ IsIdle self.old → cells_left self.new < cells_left self.old }
    {
        let Some(frame) = self.frames.pop() else {
            return;
        };
        let content = sheet.content(frame.cell);
        let word = evaluate(sheet.sizes(), &self.words, content, &mut self.stack);
        self.words[sheet.place(frame.cell)] = word;
    }

    /// Looks on at what is left of the newest open cell: settles it, or opens one more cell, or
    /// finds that all open cells lead into a cycle.
    fn turn(&mut self, sheet: &Sheet) -> Result<(), AllocError>
        requires sound { IsStoredWalk sheet.now self.old }
        ensures sound { OnOk result (IsStoredWalk sheet.now self.new) }
        ensures seen { OnOk result (StaysSeen self.old self.new) }
        ensures known { OnOk result (StaysKnown self.old self.new) }
        ensures less { OnOk result (¬ IsIdle self.old → cells_left self.new < cells_left self.old) }
    {
        let count = self.frames.len();
        if count == 0 {
            return Ok(());
        }
        let frame = self.frames[count - 1];
        match look(sheet.sizes(), &self.words, &mut self.parts, frame.first) {
            Some(cell) => self.enter(sheet, cell),
            None => {
                self.finish(sheet);
                list(&mut self.found, frame.cell)
            }
        }
    }

    /// Settles the cell at a place, or opens it, where no other one is open.
    fn begin(&mut self, sheet: &Sheet, place: usize) -> Result<(), AllocError>
        requires sound { IsStoredWalk sheet.now self.old }
        requires idle { IsIdle self.old }
        requires place { place < cell_count sheet.now.sizes }
        requires unseen { slice_get (walk_states self.old) place ≡ Some Unseen }
        ensures sound { OnOk result (IsStoredWalk sheet.now self.new) }
        ensures seen { OnOk result (StaysSeen self.old self.new) }
        ensures known { OnOk result (StaysKnown self.old self.new) }
        ensures begun { OnOk result (slice_get (walk_states self.new) place ≢ Some Unseen) }
        ensures less { OnOk result (cells_left self.new < cells_left self.old) }
    {
        if self.settle_at_once(sheet, place) {
            return Ok(());
        }
        self.open(sheet, sheet.cell_at(place))
    }

    /// Settles the cell at a place, and every cell that it leads to.
    pub(crate) fn settle(&mut self, sheet: &Sheet, place: usize) -> Result<(), AllocError>
        requires sound { IsStoredWalk sheet.now self.old }
        requires idle { IsIdle self.old }
        requires place { place < cell_count sheet.now.sizes }
        ensures sound { OnOk result (IsStoredWalk sheet.now self.new) }
        ensures idle { OnOk result (IsIdle self.new) }
        ensures seen { OnOk result (StaysSeen self.old self.new) }
        ensures known { OnOk result (StaysKnown self.old self.new) }
        ensures settled { OnOk result (slice_get (walk_states self.new) place ≢ Some Unseen) }
    {
        if self.words[place] != CodeWord::UNSEEN.get() {
            return Ok(());
        }
        self.begin(sheet, place)?;
        while !self.frames.is_empty() {
            self.turn(sheet)?;
        }
        Ok(())
    }

    /// Whether the value of the cell at a place is known.
    pub(crate) fn knows(&self, place: usize) -> bool
        requires { place < length self.now.words.items }
        ensures known { IsTrue result → IsKnownAt (walk_states self.now) place }
        ensures unknown { IsFalse result → ¬ IsKnownAt (walk_states self.now) place }
    {
        !CodeWord::new(self.words[place]).is_spare()
    }

    /// Settles the cell at a place, and every cell that it leads to, whatever cells are open. Unless its value is known
    /// already, these are given up.
    pub(crate) fn settle_apart(&mut self, sheet: &Sheet, place: usize) -> Result<(), AllocError>
        requires sound { IsStoredWalk sheet.now self.old }
        requires place { place < cell_count sheet.now.sizes }
        ensures sound { OnOk result (IsStoredWalk sheet.now self.new) }
        ensures known { OnOk result (StaysKnown self.old self.new) }
        ensures settled { OnOk result (IsKnownAt (walk_states self.new) place) }
    {
        if self.knows(place) {
            return Ok(());
        }
        self.give_up(sheet);
        self.settle(sheet, place)?;
        Ok(())
    }

    /// Goes on with the open cells, or begins with the one at a place where none is open.
    fn step(&mut self, sheet: &Sheet, place: usize) -> Result<(), AllocError>
        requires sound { IsStoredWalk sheet.now self.old }
        requires place { place < cell_count sheet.now.sizes }
        requires unknown { ¬ IsKnownAt (walk_states self.old) place }
        ensures sound { OnOk result (IsStoredWalk sheet.now self.new) }
        ensures known { OnOk result (StaysKnown self.old self.new) }
        ensures less { OnOk result (cells_left self.new < cells_left self.old) }
    {
        if self.frames.is_empty() {
            return self.begin(sheet, place);
        }
        self.turn(sheet)
    }

    /// Goes on until the value of the cell at a place is known, and says so, or until no step is left. Each turn of the
    /// walk takes a step.
    pub(crate) fn settle_within(
        &mut self,
        sheet: &Sheet,
        place: usize,
        steps: &mut u32,
    ) -> Result<bool, AllocError>
        requires sound { IsStoredWalk sheet.now self.old }
        requires place { place < cell_count sheet.now.sizes }
        ensures sound { OnOk result (IsStoredWalk sheet.now self.new) }
        ensures known { OnOk result (StaysKnown self.old self.new) }
        ensures settled { IfOk result
            (λ done. IsTrue done → IsKnownAt (walk_states self.new) place) }
        ensures ended { IfOk result (λ done. IsFalse done → steps.new ≡ 0) }
        ensures less { OnOk result
            (cells_left self.new + steps.old ≤ cells_left self.old + steps.new) }
    {
        while !self.knows(place) {
            if *steps == 0 {
                return Ok(false);
            }
            *steps -= 1;
            self.step(sheet, place)?;
        }
        Ok(true)
    }

    /// Settles every cell.
    fn run(&mut self, sheet: &Sheet) -> Result<(), AllocError>
        requires sound { IsStoredWalk sheet.now self.old }
        requires idle { IsIdle self.old }
        ensures sound { OnOk result (IsStoredWalk sheet.now self.new) }
        ensures idle { OnOk result (IsIdle self.new) }
        ensures known { OnOk result
            (SeenBelow (walk_states self.new) (cell_count sheet.now.sizes)) }
    {
        for place in 0..self.words.len() {
            self.settle(sheet, place)?;
        }
        Ok(())
    }

    /// Settles every cell of a range.
    fn run_within(&mut self, sheet: &Sheet, range: Range) -> Result<(), AllocError>
        requires sound { IsStoredWalk sheet.now self.old }
        requires idle { IsIdle self.old }
        requires within { IsWithinSheet range sheet.now }
        ensures sound { OnOk result (IsStoredWalk sheet.now self.new) }
        ensures idle { OnOk result (IsIdle self.new) }
        ensures known { OnOk result (SeenWithin sheet.now.sizes (walk_states self.new) range) }
    {
        let mut cell = range.head();
        for _place in 0..range.cells() {
            self.settle(sheet, sheet.place(cell))?;
            cell = range.cell_behind(cell);
        }
        Ok(())
    }
}

/// The code of the value of each cell, row by row.
///
/// Each formula is evaluated once, over values that are known. Before that the walk tries, once, whether they are: it
/// looks at the cells that the formula names, up to the first that evaluation can't read past, or to a range of more
/// than 64 cells. Where it comes to neither, the formula is evaluated. Else it is opened, and the walk looks once at
/// each cell that it names, for each time that it names it, whatever was not known yet, and once more at each cell for
/// which it waited, with a few that lie behind it. Such a look is two where others than numbers lie beside the cell.
/// Cells past the rectangle take no time. The time is in proportion to the cells, the formulas and the cells that they
/// name. It takes 8 bytes for each cell, and 40 bytes or a few more for each open one; no recursion goes by the depth
/// of the sheet.
pub fn all_values(alloc: Global, sheet: &Sheet) -> Result<Vec<u64>, Memory>
    ensures { IfOk result (λ codes. AreValues sheet.now codes.items) }
{
    let mut walk = Walk::new(alloc, sheet)?;
    walk.run(sheet)?;
    Ok(walk.words)
}

/// The codes of the values of a range's cells, each at the place that `all_values` gives it; what stands at the places
/// of other cells means nothing.
///
/// It evaluates the formulas of the range and those to which they lead, in the time that `all_values` takes for these
/// formulas, and looks once at each cell of the sheet. It takes as much memory as `all_values`.
pub fn range_values(alloc: Global, sheet: &Sheet, range: Range) -> Result<Vec<u64>, Memory>
    requires { IsWithinSheet range sheet.now }
    ensures { IfOk result (λ codes. HaveCodes sheet.now codes.items range) }
{
    let mut walk = Walk::new(alloc, sheet)?;
    walk.run_within(sheet, range)?;
    Ok(walk.words)
}
