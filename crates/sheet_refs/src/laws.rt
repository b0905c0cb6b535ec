ghost use Rattle.sheet_refs.specs.NameLaws.{CellsPrintNames, RangesPrintNames, NamesOneCell};
ghost use Rattle.sheet_refs.specs.NameLaws.{NamesOneRange, ReferencesPrintNames};
ghost use Rattle.sheet_refs.specs.SetLaws.{MaximalRunsAreOne};

/// What holds of names: what a cell, a range or a reference prints is a name of it, so that it can be read
/// back, and no text names two cells or two ranges.
pub fn name_laws()
    ensures cells_print_names { CellsPrintNames }
    ensures ranges_print_names { RangesPrintNames }
    ensures references_print_names { ReferencesPrintNames }
    ensures names_one_cell { NamesOneCell }
    ensures names_one_range { NamesOneRange }
{}

/// A set of cells has one list of maximal vertical runs, so that `RectSet::columns` answers the same for sets with the
/// same cells, in whatever way they came.
pub fn set_laws()
    ensures one_list { MaximalRunsAreOne }
{}
