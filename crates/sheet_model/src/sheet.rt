ghost use Rattle.std.specs.Prelude.{◌≡◌, ◌≢◌, ◌↔◌, ◌<◌, ◌≤◌};
ghost use Rattle.std.specs.Prelude.{◌^◌, ◌-◌, length, map, IfOk, OnOk};
ghost use Rattle.std.specs.Prelude.{OnErr, IsTrue};
ghost use Rattle.sheet_refs.specs.Sizes.{is_inside, cell_count, place_of};
ghost use Rattle.formula_syntax.specs.Spelling.{HasTooManyRefs};
ghost use Rattle.sheet_model.specs.Changes.{after_change};
ghost use Rattle.sheet_model.specs.Edits.{IsChangeFor, IsFor, after_edit, held_in, replaced_by};
ghost use Rattle.sheet_model.specs.Fields.{IsContent, IsDeepFormula, IsTableAfter};
ghost use Rattle.sheet_model.specs.Sheets.{IsSheetSize, IsSheet, IsHeld, IsWritten, content_of};
ghost use Rattle.sheet_model.specs.Sheets.{blank_sheet, with_labels, content_value};
ghost use Rattle.sheet_model.specs.declared.fields.ContentRefused.TheVariants as refused;

use crate::change::Change;
use crate::content::{Content, copy_all};
use crate::edit::Edit;
use crate::fields::{ContentRefused, read_content};
use crate::labels::Labels;
use formula_syntax::Edition;
use sheet_refs::{Cell, Memory, Sizes};
use std::alloc::Global;
use std::marker::Model;
use std::mem;

/// A rectangle of cells that begins at A1, with a content in each, and the table of its labels.
///
/// It has at most 1,048,576 cells and 16,384 columns. A sheet without rows has no columns. Every label in
/// it is in its table, each constant is a value in range and each formula can be read, and none of them
/// writes `#CIRC!`.
#[derive(Drop)]
pub struct Sheet {
    edition: Edition,
    sizes: Sizes,
    contents: Vec<Content>,
    labels: Labels,
    /// What is lent for a cell past the rectangle: always empty.
    outside: Content,
    alloc: Global,
}

impl Model for Sheet {
    ghost use Rattle.std.specs.Coded.{codes};
    ghost use Rattle.formula_syntax.specs.TreeCode.{tree_code};
    ghost use Rattle.sheet_model.specs.Sheets.{SheetValue, IsStored, sheet_value};

    ghost Value = { SheetValue };

    ghost coded = { Prim.hlevel (codes, tree_code (Prim.hlevel codes)) };

    ghost view = { λ s. sheet_value s.edition s.sizes s.contents.items s.labels };

    ghost invariant = { λ s. IsStored s.edition s.sizes s.contents.items s.labels s.outside };
}

impl Sheet {
    /// A sheet of empty cells, whose formulas have the functions of an edition. It takes time and memory in
    /// proportion to the number of cells.
    pub fn blank(alloc: Global, rows: u32, cols: u32, edition: Edition) -> Result<Sheet, Memory>
        requires { IsSheetSize (record { rows = rows; cols = cols }) }
        ensures { IfOk result
            (λ sheet. sheet ≡ blank_sheet edition (record { rows = rows; cols = cols })) }
    {
        let cells = rows as usize * cols as usize;
        let mut contents = Vec::with_capacity(alloc, cells)?;
        for _ in 0..cells {
            contents.push(Content::Empty)?;
        }
        Ok(Sheet {
            edition,
            sizes: Sizes { rows, cols },
            contents,
            labels: Labels::new(alloc),
            outside: Content::Empty,
            alloc,
        })
    }

    /// An equal sheet. Formulas are shared, not copied: it takes time and memory in proportion to the cells and
    /// to the texts of the labels.
    pub fn copy(&self) -> Result<Sheet, Memory>
        ensures { IfOk result (λ sheet. sheet ≡ self.now) }
    {
        let contents = copy_all(self.alloc, &self.contents)?;
        let labels = self.labels.copy()?;
        Ok(Sheet {
            edition: self.edition,
            sizes: self.sizes,
            contents,
            labels,
            outside: Content::Empty,
            alloc: self.alloc,
        })
    }

    /// The edition of the functions of its formulas.
    pub fn edition(&self) -> Edition
        ensures edition { result ≡ self.now.edition }
        ensures sheet { IsSheet self.now }
    {
        self.edition
    }

    /// The number of rows and of columns.
    pub fn sizes(&self) -> Sizes
        ensures sizes { result ≡ self.now.sizes }
        ensures sheet { IsSheet self.now }
    {
        self.sizes
    }

    /// The number of rows.
    pub fn rows(&self) -> u32
        ensures rows { result ≡ self.now.sizes.rows }
        ensures sheet { IsSheet self.now }
    {
        self.sizes.rows
    }

    /// The number of columns.
    pub fn cols(&self) -> u32
        ensures cols { result ≡ self.now.sizes.cols }
        ensures sheet { IsSheet self.now }
    {
        self.sizes.cols
    }

    /// The table of labels.
    pub fn labels(&self) -> &Labels
        ensures labels { result.now ≡ self.now.labels }
        ensures sheet { IsSheet self.now }
    {
        &self.labels
    }

    /// Whether the cell lies in the rectangle.
    pub fn holds(&self, cell: Cell) -> bool
        ensures { result ≡ is_inside self.now.sizes cell }
    {
        self.sizes.holds(cell)
    }

    /// The place of a cell among the cells, row by row, counted from 0.
    pub fn place(&self, cell: Cell) -> usize
        requires { IsTrue (is_inside self.now.sizes cell) }
        ensures place { result ≡ place_of self.now.sizes cell }
        ensures within { result < cell_count self.now.sizes }
    {
        self.sizes.place(cell)
    }

    /// The cell at a place.
    pub(crate) fn cell_at(&self, place: usize) -> Cell
        requires { place < cell_count self.now.sizes }
        ensures inside { IsTrue (is_inside self.now.sizes result) }
        ensures place { place_of self.now.sizes result ≡ place }
    {
        self.sizes.cell_at(place)
    }

    /// What stands in the cells, row by row.
    pub(crate) fn contents(&self) -> &[Content]
        ensures contents { map content_value result.now ≡ self.now.contents }
        ensures sheet { IsSheet self.now }
    {
        &self.contents
    }

    /// What stands in a cell; a cell past the rectangle is empty.
    pub fn content(&self, cell: Cell) -> &Content
        ensures content { content_value result.now ≡ content_of self.now cell }
        ensures held { IsHeld (length self.now.labels) (content_value result.now) }
    {
        if self.holds(cell) {
            &self.contents[self.place(cell)]
        } else {
            &self.outside
        }
    }

    /// Reads a field as `read_content` does, in the sheet's edition and into its own table, and changes nothing else.
    /// The content may then be put into a cell of the sheet.
    pub fn read(&mut self, text: &str) -> Result<Content, ContentRefused>
        requires short { length text.now ≤ 8192 }
        requires room { length self.old.labels < 2 ^ 32 - 1 }
        ensures read { IfOk result
            (λ content. IsContent self.old.edition self.new.labels text.now (content_value content)) }
        ensures held { IfOk result
            (λ content. IsHeld (length self.new.labels) (content_value content)) }
        ensures table { OnOk result (IsTableAfter text.now self.old.labels self.new.labels) }
        ensures kept { self.new ≡ with_labels self.old self.new.labels }
        ensures refused { OnErr result (self.new ≡ self.old) }
        ensures too_deep { result ≢ Err refused.Memory
            → (result ≡ Err refused.TooDeep ↔ IsDeepFormula text.now) }
        ensures too_many_refs { result ≢ Err refused.Memory
            → (result ≡ Err refused.TooManyRefs ↔ HasTooManyRefs self.old.edition text.now) }
    {
        read_content(self.alloc, text, self.edition, &mut self.labels)
    }

    /// Puts a content into a cell, and gives back what the cell held. It takes no memory.
    pub fn put(&mut self, change: Change) -> Content
        requires { IsChangeFor self.old change }
        ensures replaced { content_value result ≡ content_of self.old change.cell }
        ensures held { IsHeld (length self.old.labels) (content_value result) }
        ensures placed { self.new ≡ after_change self.old change }
        ensures sheet { IsSheet self.new }
    {
        let place = self.sizes.place(change.cell);
        mem::replace(&mut self.contents[place], change.content)
    }

    // Makes a change, which then holds what its cell held.
    fn exchange(&mut self, change: &mut Change)
        requires { IsChangeFor self.old change.old }
        ensures replaced { change.new ≡ held_in self.old change.old }
        ensures written { IsWritten change.new.content }
        ensures placed { self.new ≡ after_change self.old change.old }
        ensures sheet { IsSheet self.new }
    {
        let cell = change.cell;
        let nothing = Change {
            cell,
            content: Content::Empty,
        };
        let content = self.put(mem::replace(change, nothing));
        *change = Change { cell, content };
    }

    /// Makes an edit, and gives back an edit of the same cells, in the same order, with what they held. It takes no
    /// memory, and the time of its changes.
    pub fn apply(&mut self, edit: Edit) -> Edit
        requires { IsFor self.old edit }
        ensures replaced { result ≡ replaced_by self.old edit }
        ensures placed { self.new ≡ after_edit self.old edit }
        ensures sheet { IsSheet self.new }
    {
        let Edit { mut changes } = edit;
        for place in 0..changes.len() {
            self.exchange(&mut changes[place]);
        }
        Edit { changes }
    }
}
