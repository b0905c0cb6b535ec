ghost use Rattle.std.specs.Prelude.{IfOk, IfSome};
ghost use Rattle.sheet_refs.specs.Sizes.{cell_count};
ghost use Rattle.mark_core.specs.Runs.{IsOpening};
ghost use Rattle.sheet_model.specs.Sheets.{content_value};
ghost use Rattle.edit_log.specs.Touches.{place_worth};
ghost use Rattle.recalc_trial.specs.Offices.{IsCodeOfConstant};

use sheet_model::{Content, Sheet};
use sheet_refs::Memory;
use std::alloc::Global;
use value_core::{Value, code};

/// The code of a constant; a formula has none before it is computed.
fn opening_code(content: &Content) -> Option<u64>
    ensures { IfSome result (IsCodeOfConstant (content_value content.now)) }
{
    match content {
        Content::Empty => Some(code(Value::Empty)),
        Content::Number(number) => Some(code(Value::Number(*number))),
        Content::Truth(truth) => Some(code(Value::Truth(*truth))),
        Content::Error(kind) => Some(code(Value::Error(*kind))),
        Content::Label(place) => Some(code(Value::Label(*place))),
        Content::Formula(_) => None,
    }
}

/// The codes with which the words of a sheet open.
pub fn opening_codes(alloc: Global, sheet: &Sheet) -> Result<Vec<Option<u64>>, Memory>
    ensures { IfOk result
        (λ codes. IsOpening (cell_count sheet.now.sizes) (place_worth sheet.now) codes.items) }
{
    let sizes = sheet.sizes();
    let mut codes = Vec::new(alloc);
    for place in 0..sizes.rows as usize * sizes.cols as usize {
        codes.push(opening_code(sheet.content(sizes.cell_at(place))))?;
    }
    Ok(codes)
}
