ghost use Rattle.std.specs.Prelude.{◌≡◌};
ghost use Rattle.formula_syntax.specs.Editions.{has};

/// An edition of the functions. Each edition has all functions of the earlier ones.
#[derive(Clone, Copy, Debug, PartialEq, Eq)]
pub enum Edition {
    /// The edition of a sheet that names none.
    One,
    /// Edition 1, and COUNTIF, SUMIF and MATCH.
    Two,
}

impl Edition {
    /// Whether this edition has what came with another one.
    pub fn has(self, other: Edition) -> bool
        ensures { result ≡ has self other }
    {
        match (self, other) {
            (Edition::One, Edition::One) => true,
            (Edition::One, Edition::Two) => false,
            (Edition::Two, Edition::One) => true,
            (Edition::Two, Edition::Two) => true,
        }
    }
}
