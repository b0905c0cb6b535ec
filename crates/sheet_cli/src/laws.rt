// Laws of the definitions that the contract of `run` cites.
ghost use Rattle.sheet_cli.specs.Answers.{OneAnswer, WordsAskForOne};
ghost use Rattle.sheet_cli.specs.Filled.{FilledTextIsItsEdit};
ghost use Rattle.sheet_cli.specs.Laws.{CalmIsStill, RefusedStatusesAreThree, StatusesAreSeven};
ghost use Rattle.sheet_cli.specs.Laws.{CalmLineIsWhole, LineIsTakenFromItsFront};
ghost use Rattle.sheet_cli.specs.Laws.{DueIsNamed, UnfetchedOfCheck, UnfetchedOfLive, UnfetchedOfPath};
ghost use Rattle.sheet_cli.specs.Laws.{UnfetchedOfFill, UnfetchedOfPlay, UnfetchedOfUndo};
ghost use Rattle.sheet_cli.specs.Laws.{UnfetchedOfWindow, TellsOfCheck, TellsOfLive, TellsOfPath};
ghost use Rattle.sheet_cli.specs.Laws.{TellsOfFill, TellsOfPlay, TellsOfUndo, TellsOfWindow};
ghost use Rattle.sheet_cli.specs.Laws.{AcceptedIsNotRefused, BegunIsAPrefix, ChecksHaveOneCount};
ghost use Rattle.sheet_cli.specs.Laws.{LivesHaveOneScript, NoneIsNoChain, PathsHaveOneLength, ShownIsShortest};
ghost use Rattle.sheet_cli.specs.Laws.{NoOutputAndRefusal, OneOutput, OneRefusal, RefusedIsOwed};
ghost use Rattle.sheet_cli.specs.Laws.{WrittenIsOwed, ListedEdgesAreJoined};
ghost use Rattle.sheet_cli.specs.Laws.{GenIsNotRefused, SummedIsOneText, TellsOfGen};
ghost use Rattle.sheet_cli.specs.Rows.{AcceptedRow, CheckRow, DepsRow, ListedRow, OutsideRow};
ghost use Rattle.sheet_cli.specs.Rows.{PlayRow, PrecsRow, RefusedScriptRow, ShowRow, UsageRow};

/// Words ask for at most one thing; and words and the texts that they name, where the shelf tells these, are
/// answered in one way, but for which edges `check` lists, which of the texts that it may write `live` does, and which
/// shortest chain `path` shows.
pub fn run_laws()
    ensures request { WordsAskForOne }
    ensures answer { OneAnswer }
{}

/// Which numbers are statuses; and that a count of faults is calm where it stands still.
pub fn status_laws()
    ensures all { StatusesAreSeven }
    ensures refused { RefusedStatusesAreThree }
    ensures calm { CalmIsStill }
{}

/// What it is for notes that tell to take a line: they gain first bytes of it, and without a fault all of it.
pub fn note_laws()
    ensures front { LineIsTakenFromItsFront }
    ensures whole { CalmLineIsWhole }
{}

/// A text that is due is one that the words name, and so is the one that a line of a failed fetch names.
pub fn unfetched_laws()
    ensures named { DueIsNamed }
    ensures window { UnfetchedOfWindow }
    ensures check { UnfetchedOfCheck }
    ensures path { UnfetchedOfPath }
    ensures fill { UnfetchedOfFill }
    ensures play { UnfetchedOfPlay }
    ensures undo { UnfetchedOfUndo }
    ensures live { UnfetchedOfLive }
{}

/// A shelf that tells just the texts that the words name tells the texts of the words.
pub fn told_laws()
    ensures window { TellsOfWindow }
    ensures check { TellsOfCheck }
    ensures path { TellsOfPath }
    ensures fill { TellsOfFill }
    ensures play { TellsOfPlay }
    ensures undo { TellsOfUndo }
    ensures live { TellsOfLive }
{}

/// What a run leaves behind, in plain bytes, where the shelf tells the texts of the words: outputs of one
/// input are equal, but for the lines of `check` behind the number of pairs, for the texts that `live` may write of
/// one script over one sheet, and for chains of one length of `path`; refusals are equal; there are not both, and no
/// refusal where what the words ask for is in order. What was written or begun is what is owed.
pub fn ending_laws()
    ensures output { OneOutput }
    ensures checks { ChecksHaveOneCount }
    ensures lives { LivesHaveOneScript }
    ensures paths { PathsHaveOneLength }
    ensures refusal { OneRefusal }
    ensures apart { NoOutputAndRefusal }
    ensures accepted { AcceptedIsNotRefused }
    ensures written { WrittenIsOwed }
    ensures begun { BegunIsAPrefix }
    ensures noted { RefusedIsOwed }
{}

/// What `check` writes is the text of some edges in order, of which no two can be joined.
pub fn check_laws()
    ensures joined { ListedEdgesAreJoined }
{}

/// What `path` writes is `none` exactly where no chain leads from one cell to the other, and else a shortest chain.
pub fn path_laws()
    ensures none { NoneIsNoChain }
    ensures shortest { ShownIsShortest }
{}

/// What `fill` writes of the sheet of a text is one step of the client `main`, the edit that fills the range, where it
/// is a script over that sheet and the cell that was copied holds no label.
pub fn filled_laws()
    ensures script { FilledTextIsItsEdit }
{}

/// What `gen` writes: its words name no text, so that whatever a shelf tells, it tells their texts; it is never
/// refused; and what it writes of a number is one text, with 100 edits and the sum of the numbers among the values of
/// the number's sheet after the edits of its script, whatever the schedule.
pub fn generated_laws()
    ensures told { TellsOfGen }
    ensures not_refused { GenIsNotRefused }
    ensures one_text { SummedIsOneText }
{}

/// Rows worked out by hand, over the sheet `1,=A1+1` above `2,=A2+B1`: what is written, and what is noted.
pub fn row_laws()
    ensures show { ShowRow }
    ensures accepted { AcceptedRow }
    ensures outside { OutsideRow }
    ensures usage { UsageRow }
    ensures deps { DepsRow }
    ensures precs { PrecsRow }
    ensures check { CheckRow }
    ensures listed { ListedRow }
{}

/// The same of `play` over that sheet: a script that looks at its edit at once and after two turns, and one about a
/// cell past the sheet.
pub fn script_row_laws()
    ensures play { PlayRow }
    ensures refused { RefusedScriptRow }
{}
