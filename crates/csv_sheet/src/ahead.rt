// What the fields of a text of lines write, read ahead of filling a sheet, by several threads. Labels are left to
// filling, since their texts go into the sheet's table in their order; all else stands without that table.
ghost use Rattle.std.specs.Prelude.{◌≡◌, ◌≤◌, ◌<◌, ◌+◌, ◌++◌, [], List, ℕ};
ghost use Rattle.std.specs.Prelude.{length, IfOk, OnOk};
ghost use Rattle.std.specs.Str.{IsAscii};
ghost use Rattle.std.specs.Thread.{IsSync};
ghost use Rattle.csv_sheet.specs.Ahead.{AreAhead, IsAhead, in_lists, is_label as is_label_value, text_fields};
ghost use Rattle.formula_syntax.specs.declared.edition.Edition.{Edition};
ghost use Rattle.csv_sheet.specs.Lines.{IsPlain, line_fields, text_rows};
ghost use Rattle.sheet_model.specs.Sheets.{content_value};

use crate::known::Ahead;
use crate::lines::{field_count, line_length, split_field, split_line, text_of};
use formula_syntax::{Edition, MAX_FIELD};
use sheet_model::{Content, Labels, read_content};
use sheet_refs::Memory;
use std::alloc::Global;
use std::thread::{Threads, join};

// What is known of the fields of a text of lines, of which each of so many threads reads a part, and what `work` gives,
// which this thread runs once it has started them.
fn read_each<R: Threads + Sync, B, W: FnOnce() -> B>(
    rt: &R,
    alloc: Global,
    edition: Edition,
    text: &[u8],
    threads: usize,
    work: W,
) -> (Result<Ahead, Memory>, B)
    requires ascii { IsAscii text.now }
    requires short { length text.now ≤ 16777216 }
    requires work { W.pre work }
    ensures ahead { IfOk result.0 (λ ahead. AreAhead edition (text_fields text.now) (in_lists ahead.items)) }
    ensures work { W.post work result.1 }
{
    if threads == 0 {
        let done = work();
        return (read_list(alloc, edition, text), done);
    }
    let (front, back) = split_lines(text, text.len() / threads);
    let left = threads - 1;
    let (first, (second, done)) = join(
        rt,
        || -> Result<Ahead, Memory>
            requires { IsAscii front.now × (length front.now ≤ 16777216) }
            ensures { IfOk result (λ ahead. AreAhead edition (text_fields front.entry.now) (in_lists ahead.items)) }
        { read_list(alloc, edition, front) },
        || -> (Result<Ahead, Memory>, B)
            requires { IsSync R.row × W.pre work × IsAscii back.now × (length back.now ≤ 16777216) }
            ensures { IfOk result.0 (λ ahead. AreAhead edition (text_fields back.entry.now) (in_lists ahead.items))
                × W.post work result.1 }
        { read_each(rt, alloc, edition, back, left, work) },
    );
    (joined(first, second), done)
}

/// What is known of the fields of a text of lines, of which each of so many threads reads a part, and what `work`
/// gives, which this thread runs meanwhile.
///
/// Linux puts the first thread that a thread starts on its starter's processor, where it waits while the starter works.
/// So one that does nothing is started first, and the readers behind it find idle processors.
pub(crate) fn read_parts<R: Threads + Sync, B, W: FnOnce() -> B>(
    rt: &R,
    alloc: Global,
    edition: Edition,
    text: &[u8],
    threads: usize,
    work: W,
) -> (Result<Ahead, Memory>, B)
    requires ascii { IsAscii text.now }
    requires short { length text.now ≤ 16777216 }
    requires work { W.pre work }
    ensures ahead { IfOk result.0 (λ ahead. AreAhead edition (text_fields text.now) (in_lists ahead.items)) }
    ensures work { W.post work result.1 }
{
    let (_, all) = join(
        rt,
        || {},
        || -> (Result<Ahead, Memory>, B)
            requires { IsSync R.row × W.pre work × IsAscii text.now × (length text.now ≤ 16777216) }
            ensures { IfOk result.0 (λ ahead. AreAhead edition (text_fields text.entry.now) (in_lists ahead.items))
                × W.post work result.1 }
        { read_each(rt, alloc, edition, text, threads, work) },
    );
    all
}

/// What is known of the fields of a text and of those behind it.
pub(crate) fn joined(
    first: Result<Ahead, Memory>,
    second: Result<Ahead, Memory>,
) -> Result<Ahead, Memory>
    ensures { (edition : Edition) (front back : List (List ℕ))
        → IfOk first (λ ahead. AreAhead edition front (in_lists ahead.items))
        → IfOk second (λ ahead. AreAhead edition back (in_lists ahead.items))
        → IfOk result (λ ahead. AreAhead edition (front ++ back) (in_lists ahead.items)) }
{
    one_behind_other(first?, second?)
}

// The lists of both.
fn one_behind_other(first: Ahead, second: Ahead) -> Result<Ahead, Memory>
    ensures { IfOk result (λ all. all.items ≡ first.items ++ second.items) }
{
    let mut all = first;
    let mut second = second;
    all.append(&mut second)?;
    Ok(all)
}

/// A text in two, cut behind the end of the line in which this place is.
pub(crate) fn split_lines(text: &[u8], place: usize) -> (&[u8], &[u8])
    requires { place ≤ length text.now }
    ensures rows { text_rows text.now ≡ text_rows result.0.now ++ text_rows result.1.now }
    ensures front { IsAscii text.now → IsAscii result.0.now }
    ensures back { IsAscii text.now → IsAscii result.1.now }
    ensures plain { IsPlain result.0.now → IsPlain result.1.now → IsPlain text.now }
    ensures count { length result.0.now + length result.1.now ≡ length text.now }
    ensures some { 0 < length text.now → 0 < length result.0.now }
{
    let end = place + line_length(&text[place..]);
    text.split_at((end + 1).min(text.len()))
}

/// What is known of the fields of a text of lines, in one list.
pub(crate) fn read_list(alloc: Global, edition: Edition, text: &[u8]) -> Result<Ahead, Memory>
    requires ascii { IsAscii text.now }
    requires short { length text.now ≤ 16777216 }
    ensures { IfOk result (λ ahead. AreAhead edition (text_fields text.now) (in_lists ahead.items)) }
{
    let list = read_lines(alloc, edition, text)?;
    let mut lists = Vec::new(alloc);
    lists.push(list)?;
    Ok(lists)
}

// The list itself.
fn read_lines(alloc: Global, edition: Edition, text: &[u8]) -> Result<Vec<Option<Content>>, Memory>
    requires ascii { IsAscii text.now }
    requires short { length text.now ≤ 16777216 }
    ensures { IfOk result (λ ahead. AreAhead edition (text_fields text.now) ahead.items) }
{
    let mut ahead = Vec::new(alloc);
    let mut left = text;
    while !left.is_empty() {
        let (line, behind) = split_line(left);
        if !line.is_empty() {
            read_line(alloc, edition, line, &mut ahead)?;
        }
        left = behind;
    }
    Ok(ahead)
}

// Puts what is known of the fields of a line behind what is known of those before it.
fn read_line(
    alloc: Global,
    edition: Edition,
    line: &[u8],
    ahead: &mut Vec<Option<Content>>,
) -> Result<(), Memory>
    requires ascii { IsAscii line.now }
    requires short { length line.now ≤ 16777216 }
    ensures { OnOk result ((fields : List (List ℕ)) → AreAhead edition fields ahead.old.items
        → AreAhead edition (fields ++ line_fields [] line.now) ahead.new.items) }
{
    let mut left = line;
    for _ in 0..field_count(line) {
        let (field, behind) = split_field(left);
        ahead.push(read_field(alloc, edition, text_of(field)))?;
        left = behind;
    }
    Ok(())
}

// The content that a field writes, where it is no label. A field that begins with a letter isn't looked at: nearly all
// of these are labels.
fn read_field(alloc: Global, edition: Edition, field: &str) -> Option<Content>
    ensures { IsAhead edition field.now result }
{
    if begins_with_letter(field.as_bytes()) || field.len() > MAX_FIELD {
        return None;
    }
    let mut labels = Labels::new(alloc);
    let content = read_content(alloc, field, edition, &mut labels).ok()?;
    if is_label(&content) {
        return None;
    }
    Some(content)
}

fn begins_with_letter(field: &[u8]) -> bool {
    match field.first() {
        Some(byte) => byte.is_ascii_alphabetic(),
        None => false,
    }
}

fn is_label(content: &Content) -> bool
    ensures { result ≡ is_label_value (content_value content.now) }
{
    match content {
        Content::Label(_) => true,
        Content::Empty
        | Content::Number(_)
        | Content::Truth(_)
        | Content::Error(_)
        | Content::Formula(_) => false,
    }
}
