use sheet_refs::Range;
use std::marker::Model;

/// Ranges that follow one another, one for each cell of a run down a column: that of its first cell and that of its
/// last. An end whose row is the same in both stays there for all of the cells; any other goes on by a row from each
/// cell to the next.
#[derive(Clone, Copy, Debug)]
pub struct Series {
    /// The range of the first cell.
    pub first: Range,
    /// The range of the last cell.
    pub last: Range,
}

impl Model for Series {
    ghost use Rattle.graph_walk.specs.Series.{SeriesValue};

    ghost Value = { SeriesValue };

    ghost view = { λ s. record { first = s.first; last = s.last } };

    ghost inverse = { λ v. record { first = v.first; last = v.last } };
}
