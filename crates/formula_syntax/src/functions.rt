ghost use Rattle.std.specs.Prelude.{◌≡◌};
ghost use Rattle.formula_syntax.specs.Editions.{since};
ghost use Rattle.formula_syntax.specs.Functions.{function_name, shape_of};

use crate::edition::Edition;

/// How a function reads its parameters.
#[derive(Clone, Copy, Debug, PartialEq, Eq)]
pub enum ParameterKind {
    /// Each parameter is a sequence: a reference gives the values of its cells, any other parameter one.
    Sequence,
    /// Each parameter is one value.
    Scalar,
    /// Some parameters are references and give ranges, as the function says; each other one is one value.
    Ranges,
}

/// A function of formulas. TRUE and FALSE are no functions here: a call of them is a truth.
#[derive(Clone, Copy, Debug, PartialEq, Eq)]
pub enum Function {
    /// The sum.
    Sum,
    /// The product.
    Product,
    /// The least number.
    Min,
    /// The greatest number.
    Max,
    /// How many numbers there are.
    Count,
    /// How many cells aren't empty.
    Counta,
    /// How many cells are empty.
    Countblank,
    /// The second parameter where the first is true, and else the third.
    If,
    /// The first parameter, or the second where that is an error.
    Iferror,
    /// Whether all are true.
    And,
    /// Whether some are true.
    Or,
    /// The other truth.
    Not,
    /// The magnitude.
    Abs,
    /// -1, 0 or 1.
    Sign,
    /// The remainder of a division, with the divisor's sign.
    Mod,
    /// The quotient, cut towards zero.
    Quotient,
    /// Whether it is an error.
    Iserror,
    /// Whether it is a number.
    Isnumber,
    /// Whether it is a truth.
    Islogical,
    /// Whether it is a label.
    Istext,
    /// Whether it is a reference to one empty cell.
    Isblank,
    /// The error `#N/A`.
    Na,
    /// How many numbers of a range equal a number.
    Countif,
    /// The sum of the numbers of a range that equal a number, or of those that stand at their places in another.
    Sumif,
    /// The place in a range of the first number that equals a number.
    Match,
}

impl Function {
    /// All functions.
    pub const ALL: [Function; 25] = [
        Function::Sum,
        Function::Product,
        Function::Min,
        Function::Max,
        Function::Count,
        Function::Counta,
        Function::Countblank,
        Function::If,
        Function::Iferror,
        Function::And,
        Function::Or,
        Function::Not,
        Function::Abs,
        Function::Sign,
        Function::Mod,
        Function::Quotient,
        Function::Iserror,
        Function::Isnumber,
        Function::Islogical,
        Function::Istext,
        Function::Isblank,
        Function::Na,
        Function::Countif,
        Function::Sumif,
        Function::Match,
    ];

    /// The name in upper case.
    pub fn name(self) -> &'static str
        ensures { result.now ≡ function_name self }
    {
        match self {
            Function::Sum => "SUM",
            Function::Product => "PRODUCT",
            Function::Min => "MIN",
            Function::Max => "MAX",
            Function::Count => "COUNT",
            Function::Counta => "COUNTA",
            Function::Countblank => "COUNTBLANK",
            Function::If => "IF",
            Function::Iferror => "IFERROR",
            Function::And => "AND",
            Function::Or => "OR",
            Function::Not => "NOT",
            Function::Abs => "ABS",
            Function::Sign => "SIGN",
            Function::Mod => "MOD",
            Function::Quotient => "QUOTIENT",
            Function::Iserror => "ISERROR",
            Function::Isnumber => "ISNUMBER",
            Function::Islogical => "ISLOGICAL",
            Function::Istext => "ISTEXT",
            Function::Isblank => "ISBLANK",
            Function::Na => "NA",
            Function::Countif => "COUNTIF",
            Function::Sumif => "SUMIF",
            Function::Match => "MATCH",
        }
    }

    /// The least number of parameters.
    pub fn least(self) -> usize
        ensures { result ≡ (shape_of self).least }
    {
        match self {
            Function::Na => 0,
            Function::Sum
            | Function::Product
            | Function::Min
            | Function::Max
            | Function::Count
            | Function::Counta
            | Function::Countblank
            | Function::And
            | Function::Or
            | Function::Not
            | Function::Abs
            | Function::Sign
            | Function::Iserror
            | Function::Isnumber
            | Function::Islogical
            | Function::Istext
            | Function::Isblank => 1,
            Function::If
            | Function::Iferror
            | Function::Mod
            | Function::Quotient
            | Function::Countif
            | Function::Sumif => 2,
            Function::Match => 3,
        }
    }

    /// The greatest number of parameters; None where only the length of a text limits it.
    pub fn most(self) -> Option<usize>
        ensures { result ≡ (shape_of self).most }
    {
        match self {
            Function::Na => Some(0),
            Function::Countblank
            | Function::Not
            | Function::Abs
            | Function::Sign
            | Function::Iserror
            | Function::Isnumber
            | Function::Islogical
            | Function::Istext
            | Function::Isblank => Some(1),
            Function::Iferror | Function::Mod | Function::Quotient | Function::Countif => Some(2),
            Function::If | Function::Sumif | Function::Match => Some(3),
            Function::Sum
            | Function::Product
            | Function::Min
            | Function::Max
            | Function::Count
            | Function::Counta
            | Function::And
            | Function::Or => None,
        }
    }

    /// How the parameters are read.
    pub fn place(self) -> ParameterKind
        ensures { result ≡ (shape_of self).place }
    {
        match self {
            Function::Sum
            | Function::Product
            | Function::Min
            | Function::Max
            | Function::Count
            | Function::Counta
            | Function::And
            | Function::Or => ParameterKind::Sequence,
            Function::Countblank | Function::Countif | Function::Sumif | Function::Match =>
                ParameterKind::Ranges,
            Function::If
            | Function::Iferror
            | Function::Not
            | Function::Abs
            | Function::Sign
            | Function::Mod
            | Function::Quotient
            | Function::Iserror
            | Function::Isnumber
            | Function::Islogical
            | Function::Istext
            | Function::Isblank
            | Function::Na => ParameterKind::Scalar,
        }
    }

    /// Which parameters, from 0, have to be references where they are written.
    pub fn references(self) -> &'static [usize]
        ensures { result.now ≡ (shape_of self).references }
    {
        match self {
            Function::Countblank | Function::Countif => &[0],
            Function::Sumif => &[0, 2],
            Function::Match => &[1],
            Function::Sum
            | Function::Product
            | Function::Min
            | Function::Max
            | Function::Count
            | Function::Counta
            | Function::If
            | Function::Iferror
            | Function::And
            | Function::Or
            | Function::Not
            | Function::Abs
            | Function::Sign
            | Function::Mod
            | Function::Quotient
            | Function::Iserror
            | Function::Isnumber
            | Function::Islogical
            | Function::Istext
            | Function::Isblank
            | Function::Na => &[],
        }
    }

    /// The edition with which the function came.
    pub fn since(self) -> Edition
        ensures { result ≡ since self }
    {
        match self {
            Function::Countif | Function::Sumif | Function::Match => Edition::Two,
            Function::Sum
            | Function::Product
            | Function::Min
            | Function::Max
            | Function::Count
            | Function::Counta
            | Function::Countblank
            | Function::If
            | Function::Iferror
            | Function::And
            | Function::Or
            | Function::Not
            | Function::Abs
            | Function::Sign
            | Function::Mod
            | Function::Quotient
            | Function::Iserror
            | Function::Isnumber
            | Function::Islogical
            | Function::Istext
            | Function::Isblank
            | Function::Na => Edition::One,
        }
    }
}
