ghost use Rattle.std.specs.Prelude.{◌≡◌, ℤ, ◌↔◌, IsSome, IfSome};

use std::fmt;
use std::marker::Model;

/// The greatest whole number of a cell, 2^53 - 1; the least is its negative.
pub const MAX_WHOLE: i64 = 9_007_199_254_740_991;

/// A whole number from -(2^53 - 1) to 2^53 - 1.
#[derive(Clone, Copy, Debug, PartialEq, Eq)]
pub struct Whole {
    number: i64,
}

impl Model for Whole {
    ghost use Rattle.std.specs.Prelude.{ℤ};
    ghost use Rattle.value_core.specs.Wholes.{IsWhole};

    ghost Value = { ℤ };

    ghost view = { λ w. w.number };

    ghost invariant = { λ w. IsWhole w.number };

    ghost inverse = { λ n. record { number = n } };
}

impl Whole {
    ghost use Rattle.value_core.specs.Wholes.{IsWhole};

    /// The number 0.
    pub const ZERO: Whole = Whole { number: 0 };

    /// The number 1.
    pub const ONE: Whole = Whole { number: 1 };

    /// The whole number n; None exactly where it is out of range.
    pub fn new(n: i64) -> Option<Whole>
        ensures whole { IsSome result ↔ IsWhole n }
        ensures number { IfSome result (λ whole. whole ≡ n) }
    {
        if -MAX_WHOLE <= n && n <= MAX_WHOLE {
            Some(Whole { number: n })
        } else {
            None
        }
    }

    /// The number itself.
    pub fn get(&self) -> i64
        ensures number { result ≡ self.now }
        ensures whole { IsWhole self.now }
    {
        self.number
    }
}

/// Prints the number in decimal, `-` before a negative one.
impl fmt::Display for Whole {
    ghost use Rattle.std.specs.Prelude.{Some};
    ghost use Rattle.std.specs.Fmt.{signed_decimal};

    ghost output = { λ whole. Some (signed_decimal whole) };

    fn fmt<W: fmt::Write>(&self, f: &mut fmt::Formatter<W>) -> fmt::Result {
        let number = self.number;
        write!(f, "{number}")
    }
}
