ghost use Rattle.std.specs.Prelude.{◌≡◌, ◌≢◌, ◌<◌, ◌≤◌, ◌-◌};
ghost use Rattle.std.specs.Prelude.{◌^◌, length, Ok, Err, IfSome, IsNone};
ghost use Rattle.sheet_model.specs.Sheets.{with_labels};
ghost use Rattle.edit_script.specs.Lines.{LineValue, Says};
ghost use Rattle.edit_script.specs.Progress.{Extends, IsWithinLimits, Takes, brought};
ghost use Rattle.edit_script.specs.Scripts.{IsFault, IsScriptResult, ground_of, line_number};
ghost use Rattle.edit_script.specs.declared.refused.ScriptRefused.TheVariants as refused;

use crate::line::read_line;
use crate::progress::Progress;
use crate::refused::ScriptRefused;
use crate::script::{Mode, Script};
use bstr::ByteSlice;
use sheet_model::Sheet;
use std::alloc::Global;

/// Reads a script of at most 16,777,216 bytes: lines ended by LF or CR LF, of which the last may lack its
/// end. The texts of labels that cells are set to join the sheet's table, in the order of their lines;
/// nothing else of the sheet changes.
///
/// Refuses at the first line with a fault, by the first of its causes in the order of `ScriptRefused`, with
/// the line's number; where no line has one and the script ends within a batch, at the first line of the batch.
/// Memory may come at any point. After a refusal the sheet's table begins with what it
/// held. It takes time in proportion to the length of the text.
pub fn read_script(
    alloc: Global,
    text: &[u8],
    mode: Mode,
    sheet: &mut Sheet,
) -> Result<Script, ScriptRefused>
    requires short { length text.now ≤ 16777216 }
    requires room { length sheet.old.labels ≤ 3000000000 }
    ensures result { result ≢ Err refused.Memory
        → IsScriptResult mode (ground_of sheet.old) sheet.old.labels sheet.new.labels text.now result }
    ensures kept { sheet.new ≡ with_labels sheet.old sheet.new.labels }
    ensures grown { Extends sheet.old.labels sheet.new.labels }
{
    let mut progress = Progress::new(alloc);
    let mut number: u32 = 0;
    for text in text.lines() {
        number += 1;
        if let Some(why) = take_line(alloc, text, mode, number, &mut progress, sheet) {
            return Err(why);
        }
    }
    if let Some(number) = progress.unended() {
        return Err(ScriptRefused::BadLine(number));
    }
    Ok(progress.into_script())
}

// Takes a line; tells why it is refused, where it is.
fn take_line(
    alloc: Global,
    text: &[u8],
    mode: Mode,
    number: u32,
    progress: &mut Progress,
    sheet: &mut Sheet,
) -> Option<ScriptRefused>
    requires sound { IsWithinLimits progress.old }
    requires room { length sheet.old.labels < 2 ^ 32 - 1 }
    ensures taken { IsNone result → (line : LineValue) × Says mode text.now line
        × Takes (ground_of sheet.old) line number sheet.old.labels progress.old
        sheet.new.labels progress.new }
    ensures fault { IfSome result (λ why. why ≢ refused.Memory → (line_number why ≡ number)
        × IsFault mode (ground_of sheet.old) (brought progress.old) text.now why) }
    ensures same { IfSome result (λ why. why ≢ refused.Memory → sheet.new ≡ sheet.old) }
    ensures kept { sheet.new ≡ with_labels sheet.old sheet.new.labels }
    ensures grown { Extends sheet.old.labels sheet.new.labels }
{
    let Some(line) = read_line(text, mode) else {
        return Some(ScriptRefused::BadLine(number));
    };
    match progress.take(alloc, &line, number, sheet) {
        Ok(()) => None,
        Err(why) => Some(why),
    }
}
