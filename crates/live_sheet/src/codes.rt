ghost use Rattle.std.specs.Prelude.{◌≡◌, IfOk};
ghost use Rattle.sheet_model.specs.Sheets.{content_value};
ghost use Rattle.live_sheet.specs.Openings.{code_before, opening_codes as codes_at_opening};

use sheet_model::{Content, Sheet};
use sheet_refs::Memory;
use std::alloc::Global;
use value_core::{Value, code};

/// The code with which a cell opens: none where a formula is to be computed.
fn opening_code(content: &Content) -> Option<u64>
    ensures { result ≡ code_before (content_value content.now) }
{
    match content {
        Content::Empty => Some(code(Value::Empty)),
        Content::Number(number) => Some(code(Value::Number(*number))),
        Content::Truth(truth) => Some(code(Value::Truth(*truth))),
        Content::Error(kind) => Some(code(Value::Error(*kind))),
        Content::Label(place) => Some(code(Value::Label(*place))),
        Content::Formula(_) => None,
    }
}

/// The codes with which the cells open, row by row.
pub(crate) fn opening_codes(alloc: Global, sheet: &Sheet) -> Result<Vec<Option<u64>>, Memory>
    ensures { IfOk result (λ codes. codes.items ≡ codes_at_opening sheet.now) }
{
    let sizes = sheet.sizes();
    let cells = sizes.rows as usize * sizes.cols as usize;
    let mut codes = Vec::with_capacity(alloc, cells)?;
    for place in 0..cells {
        let cell = sizes.cell_at(place);
        codes.push(opening_code(sheet.content(cell)))?;
    }
    Ok(codes)
}
