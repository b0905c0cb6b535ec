ghost use Rattle.std.specs.Prelude.{◌≡◌, length};
ghost use Rattle.sheet_model.specs.Values.{AreValues};
ghost use Rattle.live_gen.specs.Sums.{IsNumberOf, IsSumOfAtMost, sheet_sum};

use sheet_model::Sheet;
use value_core::{Value, decode};

// The number for which a code stands; 0 where it stands for another value.
fn number_of(code: u64) -> i128
    ensures number { IsNumberOf code result }
    ensures bound { IsSumOfAtMost 1 result }
{
    let Some(value) = decode(code) else {
        return 0;
    };
    match &value {
        Value::Number(number) => i128::from(number.get()),
        _ => 0,
    }
}

/// The sum of the numbers among the values of a sheet, which are given by their codes, row by row. It is exact: the
/// numbers of a sheet, at most 1,048,576 and each of at most 2^53 - 1 in size, stay far within 128 bits. It takes the
/// time of the cells.
pub fn sum_of_numbers(sheet: &Sheet, values: &[u64]) -> i128
    requires { AreValues sheet.now values.now }
    ensures sum { result ≡ sheet_sum sheet.now }
    ensures bound { IsSumOfAtMost (length values.now) result }
{
    let _sizes = sheet.sizes();
    let mut sum = 0;
    for code in values {
        sum += number_of(*code);
    }
    sum
}
