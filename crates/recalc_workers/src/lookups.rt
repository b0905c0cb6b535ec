ghost use Rattle.std.specs.Prelude.{◌≡◌, IfSome};
ghost use Rattle.std.proofs.Props.{props};
ghost use Rattle.formula_eval.specs.Inputs.{IsCode};
ghost use Rattle.sheet_model.specs.Words.{value_prop};
ghost use Rattle.recalc_workers.specs.Inputs.{AreCodes, BeginsWithRange, place_in, word_in};
ghost use Rattle.sheet_refs.specs.Cells.{IsIn, width};
ghost use Rattle.std.specs.Prelude.{drop, slice_get};

use formula_eval::{Block, Inputs};
use sheet_model::Part;
use sheet_refs::{Cell, Range, Sizes};

/// The words that a turn read of the inputs of its cell, as an evaluation takes them.
#[derive(Clone, Copy)]
pub(crate) struct Listed<'a> {
    sizes: Sizes,
    parts: &'a [Part],
    words: &'a [u64],
    ghost coded: { AreCodes words.now } by { Prim.hlevel (props, value_prop) },
}

impl<'a> Listed<'a> {
    /// These words, of the cells of these parts of a rectangle.
    pub(crate) fn new(sizes: Sizes, parts: &'a [Part], words: &'a [u64]) -> Listed<'a>
        requires { AreCodes words.now }
        ensures sizes { result.sizes ≡ sizes }
        ensures parts { result.parts.now ≡ parts.now }
        ensures words { result.words.now ≡ words.now }
    {
        Listed {
            sizes,
            parts,
            words,
        }
    }
}

impl<'a> Inputs for Listed<'a> {
    ghost sizes = { λ listed. listed.sizes };

    ghost codes = { λ listed. word_in listed.parts.now listed.words.now };

    fn rows(&self) -> u32 {
        self.sizes.rows
    }

    fn cols(&self) -> u32 {
        self.sizes.cols
    }

    fn get(&self, cell: Cell) -> Option<u64> {
        word_of(self.parts, self.words, cell)
    }

    fn block(&self, range: Range) -> Option<Block<'_>> {
        let words = lend_words(self.parts, self.words, range)?;
        let step = width_of(range);
        Some(Block { words, step })
    }
}

/// How many columns a range has.
fn width_of(range: Range) -> usize
    ensures { result ≡ width range }
{
    (range.tail().col() - range.head().col() + 1) as usize
}

/// The place of a cell of a range among its cells, row by row, counted from 0.
fn place_within(range: Range, cell: Cell) -> usize
    requires { IsIn cell range }
    ensures { result ≡ place_in range cell }
{
    let head = range.head();
    (cell.row() - head.row()) as usize * width_of(range) + (cell.col() - head.col()) as usize
}

/// The word at a place of a list.
fn word_at(words: &[u64], place: usize) -> Option<u64>
    ensures { result ≡ slice_get words.now place }
{
    if place < words.len() {
        Some(words[place])
    } else {
        None
    }
}

/// The words but the first ones, as many as are counted.
fn without_first(words: &[u64], count: usize) -> &[u64]
    ensures { result.now ≡ drop count words.now }
{
    words.split_at(words.len().min(count)).1
}

/// The word of a cell: that of the first part with the cell.
fn word_of(parts: &[Part], words: &[u64], cell: Cell) -> Option<u64>
    requires { AreCodes words.now }
    ensures word { result ≡ word_in parts.now words.now cell }
    ensures code { IfSome result IsCode }
{
    let mut rest = words;
    for part in parts {
        let range = part.range;
        if range.contains(cell) {
            return word_at(rest, place_within(range, cell));
        }
        rest = without_first(rest, range.cells() as usize);
    }
    None
}

/// The words of a range's cells, row by row, and those behind them, where the first part with a cell of the range has
/// this very range. It looks at each part at most once, whatever the range's size.
fn lend_words<'a>(parts: &[Part], words: &'a [u64], range: Range) -> Option<&'a [u64]>
    ensures { IfSome result (λ found. BeginsWithRange (word_in parts.now words.now) range found.now) }
{
    let mut rest = words;
    for part in parts {
        let other = part.range;
        if other == range {
            return Some(rest);
        }
        if other.overlaps(&range) {
            return None;
        }
        rest = without_first(rest, other.cells() as usize);
    }
    None
}
