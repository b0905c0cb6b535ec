ghost use Rattle.std.specs.Prelude.{◌≡◌, ◌≢◌, ◌≤◌, ℕ};
ghost use Rattle.sheet_refs.specs.Cells.{Position};
ghost use Rattle.sheet_model.specs.Sheets.{SheetValue};
ghost use Rattle.sheet_model.specs.Values.{budget_value, circular_value, ValuesAreInRange};
ghost use Rattle.sheet_model.specs.Values.{ValuesAreOneStep, CyclesTellCircularCells};
ghost use Rattle.sheet_model.specs.Values.{CellsThatWaitForEachOtherAreCircular};
ghost use Rattle.sheet_model.specs.Values.{OneStepTellsTheValues, AgreeingStepsGiveOneValue};

/// What holds of the values of every sheet, however they are computed.
///
/// A value that isn't `#CIRC!` stays the same with more budget. Each cell's value is one step over the
/// values: the constant that stands in the cell, or what its formula gives over them. It is in range.
///
/// A cell's value is `#CIRC!` exactly where its references lead into a cycle: in one or more steps, to a
/// cell from which steps come back, whatever IF selects and IFERROR or ISERROR make of errors. So cells
/// each of which has an input among them are `#CIRC!`. Values that are `#CIRC!` at the cells that lead into
/// a cycle, and one step over themselves at all others, are those of the sheet.
///
/// This is so of every sheet, since none of its contents writes `#CIRC!` (`IsSheet`, which each `Sheet`
/// keeps). Over any map from cells to inputs, steps that agree on a set of cells that has their inputs give
/// these the same values with every budget.
pub fn value_laws()
    ensures stability { (sheet : SheetValue) (cell : Position) (n m : ℕ)
        → budget_value sheet n cell ≢ circular_value → n ≤ m
        → budget_value sheet m cell ≡ budget_value sheet n cell }
    ensures step { ValuesAreOneStep }
    ensures in_range { ValuesAreInRange }
    ensures cycles { CyclesTellCircularCells }
    ensures circular { CellsThatWaitForEachOtherAreCircular }
    ensures unique { OneStepTellsTheValues }
    ensures agreeing { AgreeingStepsGiveOneValue }
{}
