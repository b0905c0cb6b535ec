// `play`: the reports of a script over a sheet.
ghost use Rattle.std.specs.Prelude.{◌∷◌, IfOk, codes};
ghost use Rattle.play_machine.specs.Playing.{AreFit};
ghost use Rattle.sheet_cli.specs.Answers.{IsPlayed};
ghost use Rattle.sheet_cli.specs.Words.{IsAskedBy, bytes_of};

use crate::output::Output;
use crate::positions::two_words;
use crate::script::ScriptCommand;
use crate::words::Asked;
use edit_log::Book;
use edit_script::Step;
use play_machine::play;
use sheet_model::Sheet;
use sheet_refs::Memory;
use std::alloc::Global;
use taco_graph::SheetGraph;

/// What `play` and the words after it ask for.
pub(crate) fn read_play(alloc: Global, words: &[String]) -> Result<Asked, Memory>
    ensures { IfOk result (IsAskedBy (codes "play" ∷ bytes_of words.now)) }
{
    let Some((sheet, script)) = two_words(alloc, words)? else {
        return Ok(Asked::Nothing);
    };
    let sheet = String::from_str(alloc, sheet)?;
    let script = String::from_str(alloc, script)?;
    Ok(Asked::OfScript {
        command: ScriptCommand::Play,
        sheet,
        script,
    })
}

/// The text that `play` writes of steps over a sheet.
pub(crate) fn play_output(alloc: Global, sheet: Sheet, steps: &[Step]) -> Result<Output, Memory>
    requires { AreFit sheet steps.now }
    ensures { IfOk result (λ text. IsPlayed sheet steps.now text) }
{
    let book = Book::open(alloc, sheet, SheetGraph::new(alloc))?;
    let (book, reports) = play(alloc, book, steps)?;
    Output::of_reports(alloc, book, reports)
}
