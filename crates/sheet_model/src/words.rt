ghost use Rattle.std.specs.Prelude.{◌≡◌, ◌<◌, ◌≤◌, ◌*◌, length, slice_get, Some};
ghost use Rattle.std.specs.Prelude.{IsTrue, IsFalse, MatchOption};
ghost use Rattle.sheet_refs.specs.Cells.{Position, IsIn, cells_of};
ghost use Rattle.sheet_refs.specs.Sizes.{cell_count, is_inside};
ghost use Rattle.sheet_model.specs.Lines.{AreRowsWithin, HasNumbers, IsWithin, StopsAfter, StopsInRows};
ghost use Rattle.sheet_model.specs.Parts.{AreParts, IsPartOfRectangle, IsStopInParts, LooksOn, part_at};
ghost use Rattle.sheet_model.specs.Words.{AreWords, IsCodeWord, is_plain as plain, is_plain_state};
ghost use Rattle.sheet_model.specs.Words.{cell_state, states_of};

use crate::parts::Part;
use sheet_refs::{Cell, Range, Sizes};
use value_core::CodeWord;

fn is_plain_word(word: u64) -> bool
    requires { IsCodeWord word }
    ensures { result ≡ is_plain_state (cell_state word) }
{
    let word = CodeWord::new(word);
    if word.is_spare() {
        return false;
    }
    !word.is_circular()
}

/// Whether evaluation can read past a cell of the rectangle.
pub(crate) fn is_plain_cell(sizes: Sizes, words: &[u64], cell: Cell) -> bool
    requires count { length words.now ≡ cell_count sizes }
    requires words { AreWords words.now }
    requires inside { IsTrue (is_inside sizes cell) }
    ensures { result ≡ plain sizes (states_of words.now) cell }
{
    is_plain_word(words[sizes.place(cell)])
}

/// How many words of a line are tried together at first. Later it is as many as were read already, so that few are
/// tried in vain behind a stop.
const FIRST_BATCH: usize = 16;

/// How many words are tried together at most: where others than numbers are among them, each is looked at once more.
const BATCH: usize = 512;

// Whether the words of a line are all those of numbers, which evaluation can read past. It adds up what each word's
// kind is off from that of a number, so that no word decides which way the loop goes, and it takes several words at
// once.
fn are_numbers(words: &[u64], first: usize, step: usize, count: usize) -> bool
    requires within { IsWithin words.now first step count }
    requires few { count ≤ 512 }
    ensures { IsTrue result → HasNumbers words.now first step count }
{
    let mut others = 0;
    for k in 0..count {
        others += CodeWord::new(words[first + k * step]).off_number();
    }
    others == 0
}

// How many words of a line evaluation can read past, up to the first other one, with a look at each.
fn plain_words(words: &[u64], first: usize, step: usize, count: usize) -> usize
    requires within { IsWithin words.now first step count }
    requires words { AreWords words.now }
    ensures { StopsAfter words.now first step count result }
{
    for k in 0..count {
        if !is_plain_word(words[first + k * step]) {
            return k;
        }
    }
    count
}

// The same, with a look at each only where they aren't all numbers.
fn batch_to_stop(words: &[u64], first: usize, step: usize, count: usize) -> usize
    requires within { IsWithin words.now first step count }
    requires few { count ≤ 512 }
    requires words { AreWords words.now }
    ensures { StopsAfter words.now first step count result }
{
    if are_numbers(words, first, step, count) {
        return count;
    }
    plain_words(words, first, step, count)
}

// The same, batch by batch.
fn words_to_stop(words: &[u64], first: usize, step: usize, count: usize) -> usize
    requires within { IsWithin words.now first step count }
    requires words { AreWords words.now }
    ensures { StopsAfter words.now first step count result }
{
    let mut read = 0;
    while read < count {
        let next = read.clamp(FIRST_BATCH, BATCH).min(count - read);
        let plain = batch_to_stop(words, first + read * step, step, next);
        if plain < next {
            return read + plain;
        }
        read += next;
    }
    count
}

// The place among the words of some rows, row by row and from a place on, of the first that evaluation can't read past;
// the number of these words where there is none. Each row is a step behind the one above it.
fn stop_in_rows(
    words: &[u64],
    first: usize,
    step: usize,
    rows: usize,
    cols: usize,
    next: usize,
) -> usize
    requires within { AreRowsWithin words.now first step rows cols }
    requires words { AreWords words.now }
    requires small { rows * cols ≤ 17179869184 }
    requires next { next < rows * cols }
    ensures { StopsInRows words.now first step rows cols next result }
{
    let mut row = next / cols;
    let mut col = next % cols;
    while row < rows {
        let read = words_to_stop(words, first + row * step + col, 1, cols - col);
        if read < cols - col {
            return row * cols + col + read;
        }
        row += 1;
        col = 0;
    }
    rows * cols
}

// The same of rows of one word, which are a line.
fn stop_in_column(words: &[u64], first: usize, step: usize, rows: usize, next: usize) -> usize
    requires within { AreRowsWithin words.now first step rows 1 }
    requires words { AreWords words.now }
    requires next { next < rows }
    ensures { StopsInRows words.now first step rows 1 next result }
{
    let read = words_to_stop(words, first + next * step, step, rows - next);
    next + read
}

// The same of rows of any number of words.
fn stop_in_block(
    words: &[u64],
    first: usize,
    step: usize,
    rows: usize,
    cols: usize,
    next: usize,
) -> usize
    requires within { AreRowsWithin words.now first step rows cols }
    requires words { AreWords words.now }
    requires small { rows * cols ≤ 17179869184 }
    requires next { next < rows * cols }
    ensures { StopsInRows words.now first step rows cols next result }
{
    if cols == 1 {
        return stop_in_column(words, first, step, rows, next);
    }
    stop_in_rows(words, first, step, rows, cols, next)
}

// Where evaluation stops in a part of one cell, as most parts are: at 0, or at 1 where it can read past the cell. The
// word of the cell tells, and no division is needed.
fn stop_in_cell(sizes: Sizes, words: &[u64], part: Part) -> u64
    requires count { length words.now ≡ cell_count sizes }
    requires words { AreWords words.now }
    requires part { IsPartOfRectangle sizes (states_of words.now) part }
    requires one { length (cells_of part.range) ≡ 1 }
    requires next { part.next ≡ 0 }
    ensures part { IsPartOfRectangle sizes (states_of words.now) (part_at part result) }
    ensures stop { (cell : Position) → slice_get (cells_of part.range) result ≡ Some cell
        → IsFalse (plain sizes (states_of words.now) cell) }
{
    if is_plain_cell(sizes, words, part.range.head()) {
        return 1;
    }
    0
}

/// The place of the first cell of a part, from its next one on, that evaluation can't read past;
/// the number of its cells where there is none.
fn first_stop(sizes: Sizes, words: &[u64], part: Part) -> u64
    requires count { length words.now ≡ cell_count sizes }
    requires words { AreWords words.now }
    requires part { IsPartOfRectangle sizes (states_of words.now) part }
    ensures part { IsPartOfRectangle sizes (states_of words.now) (part_at part result) }
    ensures stop { (cell : Position) → slice_get (cells_of part.range) result ≡ Some cell
        → IsFalse (plain sizes (states_of words.now) cell) }
{
    let cells = part.range.cells();
    let place = part.next;
    if place >= cells {
        return place;
    }
    if cells == 1 {
        return stop_in_cell(sizes, words, part);
    }
    let head = part.range.head();
    let tail = part.range.tail();
    let rows = (tail.row() - head.row() + 1) as usize;
    let cols = (tail.col() - head.col() + 1) as usize;
    let first = sizes.place(head);
    stop_in_block(
        words,
        first,
        sizes.cols as usize,
        rows,
        cols,
        place as usize,
    ) as u64
}

/// Whether evaluation can read past each cell of a range in the rectangle.
pub(crate) fn is_plain_range(sizes: Sizes, words: &[u64], range: Range) -> bool
    requires count { length words.now ≡ cell_count sizes }
    requires words { AreWords words.now }
    requires inside { (cell : Position) → IsIn cell range → IsTrue (is_inside sizes cell) }
    ensures { IsTrue result → (cell : Position) → IsIn cell range
        → IsTrue (plain sizes (states_of words.now) cell) }
{
    let part = Part { range, next: 0 };
    first_stop(sizes, words, part) >= range.cells()
}

/// Looks on at the parts from a place on, the last first, up to the first cell that evaluation
/// can't read past; None where there is none, and then none of these parts is left. It looks at no
/// cell again that was read past before.
pub(crate) fn look(sizes: Sizes, words: &[u64], parts: &mut Vec<Part>, first: usize) -> Option<Cell>
    requires count { length words.now ≡ cell_count sizes }
    requires words { AreWords words.now }
    requires parts { AreParts sizes (states_of words.now) parts.old.items }
    ensures looks { LooksOn sizes (states_of words.now) parts.old.items parts.new.items }
    ensures stop { MatchOption result (length parts.new.items ≤ first)
        (IsStopInParts sizes (states_of words.now) parts.new.items first) }
{
    while parts.len() > first {
        let Some(part) = parts.pop() else {
            return None;
        };
        let next = first_stop(sizes, words, part);
        if next < part.range.cells() {
            let range = part.range;
            parts.push_reserved(Part { range, next });
            return Some(range.cell_at(next));
        }
    }
    None
}
