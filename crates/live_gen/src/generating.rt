ghost use Rattle.std.specs.Prelude.{IfOk};
ghost use Rattle.live_gen.specs.Generated.{IsGenerated};
ghost use Rattle.live_run.specs.Runs.{IsRunnable};

use crate::draws::Draws;
use crate::scripting::draw_script;
use crate::sheeting::draw_sheet;
use edit_script::Script;
use sheet_model::Sheet;
use sheet_refs::Memory;
use std::alloc::Global;

/// The sheet and the script of a number: 1,000 rows of a drawn number and six formulas, and four clients, each of
/// which makes 25 edits of drawn cells in rows of its own and then looks firmly at A1:G10. Equal numbers give equal
/// sheets and scripts. Numbers are drawn one after the other, first those of the sheet, row by row, and then for each
/// edit its row and its number. It takes the time of the 6,000 formulas.
pub fn generate(alloc: Global, number: u32) -> Result<(Sheet, Script), Memory>
    ensures generated { IfOk result (λ drawn. IsGenerated number drawn.0 drawn.1) }
    ensures runnable { IfOk result (λ drawn. IsRunnable drawn.0 drawn.1) }
{
    let mut draws = Draws::of(number);
    let sheet = draw_sheet(alloc, &mut draws)?;
    let script = draw_script(alloc, &mut draws)?;
    Ok((sheet, script))
}
