ghost use Rattle.std.specs.Prelude.{◌≡◌, ◌≤◌, ◌<◌, ◌++◌, ℕ, map, length, slice_get, Some, IsTrue};
ghost use Rattle.std.specs.Prelude.{IfSome, IsNone, OnOk, IfErr};
ghost use Rattle.sheet_refs.specs.Cells.{Position, IsIn, cells_of};
ghost use Rattle.sheet_refs.specs.Sizes.{is_inside, cell_count, place_of};
ghost use Rattle.formula_eval.specs.Meaning.{IsNamedBy};
ghost use Rattle.mark_words.specs.Tokens.{IsSeatOf, subject_of, places_of, log_of};
ghost use Rattle.sheet_model.specs.Sheets.{content_value};
ghost use Rattle.sheet_model.specs.Values.{content_references};
ghost use Rattle.sheet_model.specs.declared.parts.Part.{Part as PartValue};
ghost use Rattle.recalc_workers.specs.Inputs.{HasListed, IsInParts, IsOutdated, StopsReading, all_cells};
ghost use Rattle.recalc_workers.specs.Seats.{HasOnlyRead};

use crate::inputs::{InputList, Unread};
use crate::reading::read_place;
use mark_core::Subject;
use mark_words::{Marks, Seat};
use sheet_model::{Content, Part, add_content};
use sheet_refs::{Cell, Range, Sizes};

/// The place of a cell of the sheet, of at most 1,048,576 cells.
pub(crate) fn place_of_cell(sizes: Sizes, cell: Cell) -> u32
    requires inside { IsTrue (is_inside sizes cell) }
    requires small { cell_count sizes ≤ 1048576 }
    ensures place { result ≡ place_of sizes cell }
    ensures within { result < cell_count sizes }
{
    sizes.place(cell) as u32
}

/// The word of an input, where it was computed for its mark and the mark is within the log that the seat knows: its
/// worth after that log.
fn read_input<S: Subject>(
    marks: &Marks<S>,
    seat: &mut Seat<S>,
    sizes: Sizes,
    cell: Cell,
    met: u64,
) -> Option<u64>
    requires table { IsSeatOf marks.now seat.old }
    requires places { places_of marks.now ≡ cell_count sizes }
    requires small { cell_count sizes ≤ 1048576 }
    requires inside { IsTrue (is_inside sizes cell) }
    requires met { met ≡ length (log_of seat.old) }
    ensures same { IsSeatOf marks.now seat.new }
    ensures only { HasOnlyRead seat.old seat.new }
    ensures word { IfSome result
        (λ word. word ≡ S.worth (subject_of marks.now) (log_of seat.old) (place_of sizes cell)) }
    ensures outdated { IsNone result
        → IsOutdated seat.old seat.new (place_of sizes cell) met }
{
    let read = read_place(marks, seat, place_of_cell(sizes, cell));
    if !read.clean.is_for(read.mark) {
        return None;
    }
    if read.mark > met {
        return None;
    }
    Some(read.word)
}

/// Puts the words of the cells of a range behind the others, row by row.
fn read_range<S: Subject>(
    marks: &Marks<S>,
    seat: &mut Seat<S>,
    sizes: Sizes,
    range: Range,
    met: u64,
    words: &mut Vec<u64>,
) -> Result<(), Unread>
    requires table { IsSeatOf marks.now seat.old }
    requires places { places_of marks.now ≡ cell_count sizes }
    requires small { cell_count sizes ≤ 1048576 }
    requires inside { (cell : Position) → IsIn cell range → IsTrue (is_inside sizes cell) }
    requires met { met ≡ length (log_of seat.old) }
    ensures same { IsSeatOf marks.now seat.new }
    ensures only { HasOnlyRead seat.old seat.new }
    ensures words { OnOk result (words.new.items ≡ words.old.items
        ++ map (λ cell. S.worth (subject_of marks.now) (log_of seat.old) (place_of sizes cell)) (cells_of range)) }
    ensures stops { IfErr result
        (StopsReading sizes (λ cell. IsIn cell range) seat.old seat.new met) }
{
    let mut cell = range.head();
    for _place in 0..range.cells() {
        let Some(word) = read_input(marks, seat, sizes, cell, met) else {
            return Err(Unread::Outdated(cell));
        };
        if words.push(word).is_err() {
            return Err(Unread::Memory);
        }
        cell = range.cell_behind(cell);
    }
    Ok(())
}

/// The same for the cells of parts, one part after the other.
fn read_parts<S: Subject>(
    marks: &Marks<S>,
    seat: &mut Seat<S>,
    sizes: Sizes,
    parts: &[Part],
    met: u64,
    words: &mut Vec<u64>,
) -> Result<(), Unread>
    requires table { IsSeatOf marks.now seat.old }
    requires places { places_of marks.now ≡ cell_count sizes }
    requires small { cell_count sizes ≤ 1048576 }
    requires inside { (k : ℕ) (part : PartValue) (cell : Position) → slice_get parts.now k ≡ Some part
        → IsIn cell part.range → IsTrue (is_inside sizes cell) }
    requires met { met ≡ length (log_of seat.old) }
    ensures same { IsSeatOf marks.now seat.new }
    ensures only { HasOnlyRead seat.old seat.new }
    ensures words { OnOk result (words.new.items ≡ words.old.items
        ++ map (λ cell. S.worth (subject_of marks.now) (log_of seat.old) (place_of sizes cell))
        (all_cells parts.now)) }
    ensures stops { IfErr result
        (StopsReading sizes (IsInParts parts.now) seat.old seat.new met) }
{
    for part in parts {
        if let Err(unread) = read_range(marks, seat, sizes, part.range, met, words) {
            return Err(unread);
        }
    }
    Ok(())
}

/// Reads the inputs that a content names into the list.
pub(crate) fn read_inputs<S: Subject>(
    marks: &Marks<S>,
    seat: &mut Seat<S>,
    sizes: Sizes,
    content: &Content,
    met: u64,
    list: &mut InputList,
) -> Result<(), Unread>
    requires table { IsSeatOf marks.now seat.old }
    requires places { places_of marks.now ≡ cell_count sizes }
    requires small { cell_count sizes ≤ 1048576 }
    requires met { met ≡ length (log_of seat.old) }
    ensures same { IsSeatOf marks.now seat.new }
    ensures only { HasOnlyRead seat.old seat.new }
    ensures listed { OnOk result (HasListed sizes (content_references (content_value content.now))
        (λ cell. S.worth (subject_of marks.now) (log_of seat.old) (place_of sizes cell)) list.new) }
    ensures stops { IfErr result (StopsReading sizes
        (λ cell. IsNamedBy (content_references (content_value content.now)) cell) seat.old seat.new met) }
{
    list.parts.clear();
    list.words.clear();
    if add_content(sizes, content, &mut list.parts).is_err() {
        return Err(Unread::Memory);
    }
    read_parts(marks, seat, sizes, &list.parts, met, &mut list.words)
}
