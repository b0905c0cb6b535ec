ghost use Rattle.std.specs.Prelude.{◌≡◌, ◌<◌};
ghost use Rattle.value_core.specs.declared.value.Value.{Value};
ghost use Rattle.value_core.specs.Values.{IsValue, code_of, place_of_error, IsDecoded, IsErrorAt};

use crate::value::{ErrorKind, Value};
use crate::whole::Whole;

// What is added to a number so that its code is no negative number.
pub(crate) const SHIFT: i64 = 1 << 53;

/// The word that stands for a value: 0 for Empty, `(n + 2^53) * 8 + 1` for a number n, 2 for FALSE and
/// 10 for TRUE, `8i + 3` for the i-th error of `#NULL!`, `#DIV/0!`, `#VALUE!`, `#REF!`, `#NAME?`,
/// `#NUM!`, `#N/A` and `#CIRC!`, counted from 0, and `8i + 4` for the label at place i. No two values
/// have one code, and `decode` gives the value back.
pub fn code(v: Value) -> u64
    ensures code { result ≡ code_of v }
    ensures value { IsValue v }
    ensures distinct { (other : Value) → IsValue other → code_of other ≡ result → other ≡ v }
{
    match &v {
        Value::Empty => 0,
        Value::Number(whole) => (whole.get() + SHIFT) as u64 * 8 + 1,
        Value::Truth(false) => 2,
        Value::Truth(true) => 10,
        Value::Error(kind) => error_place(*kind) * 8 + 3,
        Value::Label(place) => *place as u64 * 8 + 4,
    }
}

/// The value for which a word stands; None exactly where no value has that code.
pub fn decode(word: u64) -> Option<Value>
    ensures { IsDecoded word result }
{
    let content = word / 8;
    match word % 8 {
        0 if content == 0 => Some(Value::Empty),
        1 if content < 1 << 54 => Whole::new(content as i64 - SHIFT).map(Value::Number),
        2 if content < 2 => Some(Value::Truth(content == 1)),
        3 => error_at(content).map(Value::Error),
        4 if content < 1 << 32 => Some(Value::Label(content as u32)),
        _ => None,
    }
}

// The place of an error in the table of errors, from 0.
fn error_place(kind: ErrorKind) -> u64
    ensures place { result ≡ place_of_error kind }
    ensures small { result < 8 }
{
    match kind {
        ErrorKind::Null => 0,
        ErrorKind::Div0 => 1,
        ErrorKind::Value => 2,
        ErrorKind::Ref => 3,
        ErrorKind::Name => 4,
        ErrorKind::Num => 5,
        ErrorKind::Na => 6,
        ErrorKind::Circ => 7,
    }
}

// The error at a place of the table of errors.
fn error_at(place: u64) -> Option<ErrorKind>
    ensures { IsErrorAt place result }
{
    match place {
        0 => Some(ErrorKind::Null),
        1 => Some(ErrorKind::Div0),
        2 => Some(ErrorKind::Value),
        3 => Some(ErrorKind::Ref),
        4 => Some(ErrorKind::Name),
        5 => Some(ErrorKind::Num),
        6 => Some(ErrorKind::Na),
        7 => Some(ErrorKind::Circ),
        _ => None,
    }
}
