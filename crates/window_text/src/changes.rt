// The lines of changes.
ghost use Rattle.std.specs.Prelude.{is_ok};
ghost use Rattle.sheet_model.specs.Sheets.{content_value};
ghost use Rattle.text_pieces.specs.Pieces.{HandsOut};
ghost use Rattle.window_text.specs.Changes.{batch_text, change_line, changes_text, clear_line, content_text, set_line};

use crate::pieces::{Stopped, send_bytes, send_cell_name, send_value, taken};
use formula_syntax::send_formula;
use sheet_model::{Change, Content, Edit, Labels, Sheet};
use sheet_refs::Cell;
use value_core::Value;

/// Hands out an edit as lines of a script.
pub(crate) fn send_batch<F: FnMut(&[u8]) -> bool>(
    sheet: &Sheet,
    edit: &Edit,
    to: &mut F,
) -> Result<(), Stopped>
    requires callable { F.IsAlwaysCallable to.old }
    ensures sent { HandsOut F.FnMut to.old (batch_text sheet.now.labels edit.now) (is_ok result) to.new }
{
    send_bytes(b"batch\n", to)?;
    send_changes(edit.changes(), sheet.labels(), to)?;
    send_bytes(b"end\n", to)
}

/// Hands out the lines of changes, in order.
pub(crate) fn send_changes<F: FnMut(&[u8]) -> bool>(
    changes: &[Change],
    labels: &Labels,
    to: &mut F,
) -> Result<(), Stopped>
    requires callable { F.IsAlwaysCallable to.old }
    ensures sent { HandsOut F.FnMut to.old (changes_text labels.now changes.now) (is_ok result) to.new }
    ensures callable { F.IsAlwaysCallable to.new }
{
    for change in changes {
        send_change(change, labels, to)?;
    }
    Ok(())
}

// Hands out the line of a change: `clear CELL` where it empties its cell, else `set CELL CONTENT`.
fn send_change<F: FnMut(&[u8]) -> bool>(
    change: &Change,
    labels: &Labels,
    to: &mut F,
) -> Result<(), Stopped>
    requires callable { F.IsAlwaysCallable to.old }
    ensures sent { HandsOut F.FnMut to.old (change_line labels.now change.now) (is_ok result) to.new }
    ensures callable { F.IsAlwaysCallable to.new }
{
    match &change.content {
        Content::Empty => send_clear(change.cell, to),
        Content::Number(_) => send_set(change.cell, &change.content, labels, to),
        Content::Truth(_) => send_set(change.cell, &change.content, labels, to),
        Content::Error(_) => send_set(change.cell, &change.content, labels, to),
        Content::Label(_) => send_set(change.cell, &change.content, labels, to),
        Content::Formula(_) => send_set(change.cell, &change.content, labels, to),
    }
}

// Hands out the line of a cell that is emptied.
fn send_clear<F: FnMut(&[u8]) -> bool>(cell: Cell, to: &mut F) -> Result<(), Stopped>
    requires callable { F.IsAlwaysCallable to.old }
    ensures sent { HandsOut F.FnMut to.old (clear_line cell) (is_ok result) to.new }
    ensures callable { F.IsAlwaysCallable to.new }
{
    send_bytes(b"clear ", to)?;
    send_cell_name(cell, to)?;
    send_bytes(b"\n", to)
}

// Hands out the line of a cell that is filled.
fn send_set<F: FnMut(&[u8]) -> bool>(
    cell: Cell,
    content: &Content,
    labels: &Labels,
    to: &mut F,
) -> Result<(), Stopped>
    requires callable { F.IsAlwaysCallable to.old }
    ensures sent { HandsOut F.FnMut to.old
        (set_line labels.now cell (content_value content.now)) (is_ok result) to.new }
    ensures callable { F.IsAlwaysCallable to.new }
{
    send_bytes(b"set ", to)?;
    send_cell_name(cell, to)?;
    send_bytes(b" ", to)?;
    send_content(content, labels, to)?;
    send_bytes(b"\n", to)
}

// Hands out a content: a value as it is shown, a formula in its plain text.
fn send_content<F: FnMut(&[u8]) -> bool>(
    content: &Content,
    labels: &Labels,
    to: &mut F,
) -> Result<(), Stopped>
    requires callable { F.IsAlwaysCallable to.old }
    ensures sent { HandsOut F.FnMut to.old
        (content_text labels.now (content_value content.now)) (is_ok result) to.new }
    ensures callable { F.IsAlwaysCallable to.new }
{
    match content {
        Content::Empty => Ok(()),
        Content::Number(number) => send_value(Value::Number(*number), labels, to),
        Content::Truth(truth) => send_value(Value::Truth(*truth), labels, to),
        Content::Error(kind) => send_value(Value::Error(*kind), labels, to),
        Content::Label(place) => send_value(Value::Label(*place), labels, to),
        Content::Formula(formula) => taken(send_formula(formula, to)),
    }
}
