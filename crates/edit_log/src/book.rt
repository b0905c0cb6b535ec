ghost use Rattle.std.specs.Prelude.{◌≡◌, ◌≤◌, length, IfOk};
ghost use Rattle.edit_log.specs.Books.{IsBook, IsOpenedWith, IsPreparedFor, HasApplied};
ghost use Rattle.edit_log.specs.Pairs.{HasNoPairs};

use crate::cycles::kept_where;
use crate::graphs::graph_of;
use crate::prepared::{Applied, Prepared};
use crate::replacing::replace_all;
use crate::values::forget;
use graph_walk::Graph;
use sheet_model::{Entry, KeptValues, Sheet};
use sheet_refs::{Memory, RectSet};
use std::alloc::Global;
use std::marker::Model;
use std::snapshot::Snapshot;

/// A sheet that is edited, with its dependency graph and the log of its edits.
///
/// Contracts see besides these the sheet with which it was opened, and for how many changes of one edit there is room
/// (`spare`). Its type keeps that the sheet is the opening one after the log, that each entry changes distinct cells,
/// that what it puts into them may stand beside the labels of the opening sheet, that the graph's pairs are those of
/// the sheet, and that the log has at most 1,048,576 entries. Beside these a book keeps a set that has each cell which
/// is on a cycle (`on_cycle`); from an edit that may put a cell onto one, or changes one of the set, nothing is known.
/// It also keeps the values that it is given to keep (`keep_values`); an edit forgets those of the cells that it
/// touches.
#[derive(Drop)]
pub struct Book<G: Graph> {
    pub(crate) opening: Snapshot<Sheet>,
    pub(crate) sheet: Sheet,
    pub(crate) graph: G,
    pub(crate) log: Vec<Entry>,
    /// The cells that may be on a cycle: each one that is on one, and perhaps others whose value was `#CIRC!`. None
    /// where nothing is known.
    pub(crate) cycles: Option<RectSet>,
    /// The values of cells, as far as they are kept.
    pub(crate) values: Option<KeptValues>,
    pub(crate) alloc: Global,
}

impl<G: Graph> Model for Book<G> {
    ghost use Rattle.std.specs.Prelude.{min, ◌*◌, ◌-◌, vec_len, vec_capacity};
    ghost use Rattle.std.specs.Coded.{codes};
    ghost use Rattle.formula_syntax.specs.TreeCode.{tree_code};
    ghost use Rattle.edit_log.specs.Books.{BookValue, IsKeptBook};

    ghost Value = { BookValue G };

    ghost coded = { Prim.hlevel (codes, tree_code (Prim.hlevel codes)) };

    ghost view = { λ b. record {
      opening = b.opening.value;
      sheet = b.sheet;
      graph = b.graph;
      log = b.log.items;
      spare = min (G.spare b.graph) (1024 * (vec_capacity b.log - vec_len b.log));
    } };

    ghost invariant = { λ b. IsKeptBook b.opening.value b.sheet b.log.items (G.pairs b.graph)
        b.cycles b.values };
}

impl<G: Graph> Book<G> {
    /// A book of a sheet, with an empty log. The graph has no pairs, and is given those of the sheet, in the time of
    /// `graph_of`. After Memory both are dropped.
    pub fn open(alloc: Global, sheet: Sheet, graph: G) -> Result<Book<G>, Memory>
    where
        G: Drop,
        requires { HasNoPairs (G.pairs graph) }
        ensures opened { IfOk result (IsOpenedWith sheet) }
        ensures kept { IfOk result (IsBook G.pairs) }
    {
        // Says that what it is lent is a sheet, which the book keeps of the opening one.
        let _ = sheet.sizes();
        let graph = graph_of(alloc, graph, &sheet)?;
        Ok(Book {
            opening: Snapshot::of(&sheet),
            sheet,
            graph,
            log: Vec::new(alloc),
            cycles: None,
            values: None,
            alloc,
        })
    }

    /// The sheet, as it is after the log.
    pub fn sheet(&self) -> &Sheet
        ensures sheet { result.now ≡ self.now.sheet }
        ensures kept { IsBook G.pairs self.now }
    {
        &self.sheet
    }

    /// The dependency graph of the sheet.
    pub fn graph(&self) -> &G
        ensures graph { result.now ≡ self.now.graph }
        ensures kept { IsBook G.pairs self.now }
    {
        &self.graph
    }

    /// The entries, the first one first.
    pub fn log(&self) -> &[Entry]
        ensures log { result.now ≡ self.now.log }
        ensures kept { IsBook G.pairs self.now }
    {
        &self.log
    }

    /// The number of entries: at most 1,048,576.
    pub fn length(&self) -> u64
        ensures length { result ≡ length self.now.log }
        ensures kept { IsBook G.pairs self.now }
    {
        self.log.len() as u64
    }

    /// Makes a prepared edit: changes its cells, gives the graph their references, and adds the entry to the log. It
    /// takes no memory, the time of the graph's `replace` for each change, and a step for each touched cell.
    pub fn apply(&mut self, prepared: Prepared) -> Applied
        requires prepared { IsPreparedFor self.old.opening self.old.log prepared }
        requires room { length prepared.entry.edit ≤ self.old.spare }
        ensures applied { HasApplied prepared.entry self.old self.new }
        ensures kept { IsBook G.pairs self.new }
        ensures number { result.number ≡ prepared.number }
        ensures touched { result.touched.items ≡ prepared.touched }
    {
        let Prepared {
            entry,
            number,
            touched,
            edit,
            refs,
            keeps_cycles,
        } = prepared;
        forget(&mut self.values, &self.sheet, &touched);
        self.cycles = kept_where(self.cycles.take(), keeps_cycles);
        replace_all(&mut self.graph, edit.changes(), &refs);
        let _ = self.sheet.apply(edit);
        self.log.push_reserved(entry);
        Applied { number, touched }
    }

    /// Gives up the book: the sheet, and the entries, the first one first. The graph is dropped.
    pub fn into_parts(self) -> (Sheet, Vec<Entry>)
    where
        G: Drop,
        ensures sheet { result.0 ≡ self.sheet }
        ensures log { result.1.items ≡ self.log }
        ensures kept { IsBook G.pairs self }
    {
        let Book {
            opening: _,
            sheet,
            graph: _,
            log,
            cycles: _,
            values: _,
            alloc: _,
        } = self;
        (sheet, log)
    }
}
