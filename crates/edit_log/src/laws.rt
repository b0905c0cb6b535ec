ghost use Rattle.edit_log.specs.Books.{EarlierSheetsAreSheets, EditsMakeTheLog};
ghost use Rattle.edit_log.specs.Inputs.{InputsAreDirectDependences, DirectDependencesAreSteps};
ghost use Rattle.edit_log.specs.Inputs.{CyclesOfPairsAreThoseOfInputs, CircularCellsDependOnCycles};
ghost use Rattle.edit_log.specs.Touches.{UntouchedCellsKeepTheirValues, TouchedBeforeAndAfter};
ghost use Rattle.edit_log.specs.Touches.{TouchedByOneOfTheChanges, ChangedCellsAreTouched};
ghost use Rattle.edit_log.specs.Touches.{TouchedCellsAreInside, TouchedCellsHaveOneList};
ghost use Rattle.edit_log.specs.Touches.{CellsAreAtTheirPlaces, PlacesAreThoseOfTheirCells};
ghost use Rattle.edit_log.specs.Touches.{TouchedPlacesAreTouchedCells, TouchedPlacesAreListed};

use graph_walk::Graph;

/// What holds of every sheet, log and entry: a cell that the entry doesn't touch keeps its value, and the entry touches
/// the same cells whether their references are taken before it or after it. It touches each cell that it changes, and
/// besides these exactly what its changes would touch, each of them alone. An entry that changes cells of the sheet
/// touches cells of the sheet alone. Two lists of what an entry touches are one.
pub fn touch_laws()
    ensures untouched { UntouchedCellsKeepTheirValues }
    ensures both { TouchedBeforeAndAfter }
    ensures changed { ChangedCellsAreTouched }
    ensures each { TouchedByOneOfTheChanges }
    ensures inside { TouchedCellsAreInside }
    ensures listed { TouchedCellsHaveOneList }
{}

/// What holds of places: a cell of a rectangle is the cell at its place, and a place is that of the cell there. An
/// entry touches the place of a cell exactly where it touches the cell; so the places that it touches are those of the
/// cells in the list of what it touches.
pub fn place_laws()
    ensures cells { CellsAreAtTheirPlaces }
    ensures places { PlacesAreThoseOfTheirCells }
    ensures touched { TouchedPlacesAreTouchedCells }
    ensures listed { TouchedPlacesAreListed }
{}

/// What holds of the pairs of a sheet: a cell of the sheet is an input of another exactly where the other depends
/// directly on it, which is a step by the pairs. A cell is on a cycle of the pairs exactly where steps of inputs lead
/// from it to itself, and its value is `#CIRC!` exactly where it is on one or depends on a cell that is.
pub fn pair_laws()
    ensures inputs { InputsAreDirectDependences }
    ensures steps { DirectDependencesAreSteps }
    ensures cycles { CyclesOfPairsAreThoseOfInputs }
    ensures circular { CircularCellsDependOnCycles }
{}

/// What holds of every book: the sheet after each beginning of its log is a sheet; and through any list of edits the
/// opening sheet stays, the log has their entries at its end, and the sheet is the opening one after the log.
pub fn book_laws<G: Graph>()
    ensures earlier { EarlierSheetsAreSheets }
    ensures edits { EditsMakeTheLog G }
{}
