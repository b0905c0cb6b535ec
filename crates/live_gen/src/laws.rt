ghost use Rattle.live_gen.specs.Apart.{LegalRunsComeToTheirScript, OrderOfClientsIsFree, SameEditsAreAsMany};
ghost use Rattle.live_gen.specs.Laws.{DrawsOfOne, EditsOfOne, FieldsOfOne, GeneratedIsAsDrawn};
ghost use Rattle.live_gen.specs.Laws.{GeneratedClientsAreApart, GeneratedRunsComeToOne, NumbersGiveOneSheet};

/// What holds of the logs of clients that change no cell of one another: in whatever order their edits stand, as long
/// as each client's are in its own order, they leave one sheet. So each legal run of a script of such clients ends with
/// the sheet to which the script's edits come in the order of the script.
pub fn order_laws()
    ensures as_many { SameEditsAreAsMany }
    ensures order_is_free { OrderOfClientsIsFree }
    ensures runs { LegalRunsComeToTheirScript }
{}

/// What holds of generated runs: a number gives one sheet; no cell is changed by two clients; and every legal run,
/// whatever its schedule, has 100 edits and ends with one sheet.
pub fn generated_laws()
    ensures one_sheet { NumbersGiveOneSheet }
    ensures apart { GeneratedClientsAreApart }
    ensures one_run { GeneratedRunsComeToOne }
{}

/// What is drawn from a number: each cell of the sheet holds what its field writes, and the script has four clients and
/// 104 steps. And rows that another program worked out for the number 1: what the generator holds after the first
/// draws; what the cells of the second row write; and the first and the last edit, 225 into A581 and 233 into A748.
pub fn drawn_laws()
    ensures drawn { GeneratedIsAsDrawn }
    ensures draws { DrawsOfOne }
    ensures fields { FieldsOfOne }
    ensures edits { EditsOfOne }
{}
