use sheet_model::{Edit, Entry};
use sheet_refs::{Cell, Refs};
use std::marker::Model;

/// An edit that is ready to be made: `Book::apply` makes it, and can't fail. It may be dropped instead.
#[derive(Drop)]
pub struct Prepared {
    pub(crate) entry: Entry,
    pub(crate) number: u64,
    pub(crate) touched: Vec<Cell>,
    /// The entry's edit once more, which goes into the sheet.
    pub(crate) edit: Edit,
    /// The ranges to which the formula of each of its changes refers.
    pub(crate) refs: Vec<Refs>,
    /// Whether no formula of it refers to a cell that it touches, so that it puts no cell onto a cycle, and it changes
    /// no cell that may be on one.
    pub(crate) keeps_cycles: bool,
}

impl Model for Prepared {
    ghost use Rattle.std.specs.Coded.{codes};
    ghost use Rattle.formula_syntax.specs.TreeCode.{tree_code};
    ghost use Rattle.edit_log.specs.Books.{PreparedValue, IsStoredEdit};

    ghost Value = { PreparedValue };

    ghost coded = { Prim.hlevel (codes, tree_code (Prim.hlevel codes)) };

    ghost view = { λ p. record { entry = p.entry; number = p.number; touched = p.touched.items } };

    ghost invariant = { λ p. IsStoredEdit
        (record { entry = p.entry; number = p.number; touched = p.touched.items })
        p.edit p.refs.items p.keeps_cycles };
}

impl Prepared {
    ghost use Rattle.std.specs.Prelude.{◌≡◌};

    /// The client with the edit.
    pub fn entry(&self) -> &Entry
        ensures { result.now ≡ self.now.entry }
    {
        &self.entry
    }

    /// The number that the entry gets in the log, counted from 1.
    pub fn number(&self) -> u64
        ensures { result ≡ self.now.number }
    {
        self.number
    }

    /// The changed cells and all cells that depend on them, row by row, each once.
    pub fn touched(&self) -> &[Cell]
        ensures { result.now ≡ self.now.touched }
    {
        &self.touched
    }
}

/// What `Book::apply` did.
#[derive(Drop)]
pub struct Applied {
    /// The number of the entry in the log, counted from 1: how many entries the log has now.
    pub number: u64,
    /// The changed cells and all cells that depend on them, row by row, each once.
    pub touched: Vec<Cell>,
}
