// What no clause says, and no run of the program shows: that codes mean what they should. The expected values were
// worked out by hand.
use value_core::{ErrorKind, Value, Whole, code, decode};

// Stands in a row for a number that is out of range. No call gives it, so that no row that wants it passes.
const OUTSIDE: Value = Value::Label(1_000);

// A number as a value. It answers without a `?`, of which each makes a test longer to prove.
fn number(n: i64) -> Value {
    match Whole::new(n) {
        Some(whole) => Value::Number(whole),
        None => OUTSIDE,
    }
}

#[test]
fn values_have_codes(rt: HostRuntime) {
    for (value, word) in [
        (Value::Empty, 0),
        (number(0), 72_057_594_037_927_937),
        (number(-1), 72_057_594_037_927_929),
        (number(9_007_199_254_740_991), 144_115_188_075_855_865),
        (number(-9_007_199_254_740_991), 9),
        (Value::Truth(false), 2),
        (Value::Truth(true), 10),
        (Value::Error(ErrorKind::Null), 3),
        (Value::Error(ErrorKind::Div0), 11),
        (Value::Error(ErrorKind::Value), 19),
        (Value::Error(ErrorKind::Ref), 27),
        (Value::Error(ErrorKind::Name), 35),
        (Value::Error(ErrorKind::Num), 43),
        (Value::Error(ErrorKind::Na), 51),
        (Value::Error(ErrorKind::Circ), 59),
        (Value::Label(0), 4),
        (Value::Label(u32::MAX), 34_359_738_364),
    ] {
        assert_eq!(rt;
            (code(value), decode(word)),
            (word, Some(value)),
            "{value:?} {word}"
        );
    }
}

#[test]
fn other_words_are_the_code_of_no_value(rt: HostRuntime) {
    for &word in &[
        1,
        8,
        16,
        18,
        67,
        34_359_738_372,
        72_057_594_037_927_936,
        144_115_188_075_855_873,
        u64::MAX,
    ] {
        assert_eq!(rt; (word, decode(word)), (word, None));
    }
}
