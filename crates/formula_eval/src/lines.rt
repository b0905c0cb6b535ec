ghost use Rattle.std.specs.Prelude.{◌<◌, ◌≤◌, ◌+◌, ◌^◌, IfOk, IfErr, IfSome};
ghost use Rattle.formula_eval.specs.Blocks.{IsLine, line_of};
ghost use Rattle.formula_eval.specs.Sums.{AddsWords, IsFirstError, tally_of};
ghost use Rattle.formula_eval.specs.Tallies.{IsBounded};

use crate::sums::Sum;
use value_core::{CodeWord, ErrorKind, decode};

/// The most words that are added without a look at each: their sum fits a word.
const BATCH: usize = 512;

// The sum with the numbers of a line; None where one of its words is that of another value. It adds up what each word's
// kind is off from that of a number, so that no word decides which way the loop goes, and it takes several words at
// once.
fn with_numbers(words: &[u64], first: usize, step: usize, count: usize, sum: Sum) -> Option<Sum>
    requires line { IsLine words.now first step count }
    requires few { count ≤ 512 }
    requires bounded { IsBounded (tally_of sum) }
    requires room { sum.count + count < 2 ^ 60 }
    ensures { IfSome result (AddsWords sum (line_of words.now first step count)) }
{
    let mut total: i64 = 0;
    let mut others = 0;
    for k in 0..count {
        let word = CodeWord::new(words[first + k * step]);
        others += word.off_number();
        total += word.number();
    }
    if others != 0 {
        return None;
    }
    Some(Sum {
        total: sum.total + i128::from(total),
        count: sum.count + count as u64,
    })
}

// The sum with the values of a line, one after the other, up to the first error.
fn with_values(
    words: &[u64],
    first: usize,
    step: usize,
    count: usize,
    sum: Sum,
) -> Result<Sum, ErrorKind>
    requires line { IsLine words.now first step count }
    requires bounded { IsBounded (tally_of sum) }
    requires room { sum.count + count < 2 ^ 60 }
    ensures ok { IfOk result (AddsWords sum (line_of words.now first step count)) }
    ensures err { IfErr result (IsFirstError (line_of words.now first step count)) }
{
    let mut more = sum;
    for k in 0..count {
        let word = words[first + k * step];
        let value = decode(word).unwrap();
        more = more.with_cell(value)?;
    }
    Ok(more)
}

// The sum with the values of a line that is no longer than a batch.
fn with_batch(
    words: &[u64],
    first: usize,
    step: usize,
    count: usize,
    sum: Sum,
) -> Result<Sum, ErrorKind>
    requires line { IsLine words.now first step count }
    requires few { count ≤ 512 }
    requires bounded { IsBounded (tally_of sum) }
    requires room { sum.count + count < 2 ^ 60 }
    ensures ok { IfOk result (AddsWords sum (line_of words.now first step count)) }
    ensures err { IfErr result (IsFirstError (line_of words.now first step count)) }
{
    match with_numbers(words, first, step, count, sum) {
        Some(more) => Ok(more),
        None => with_values(words, first, step, count, sum),
    }
}

/// The sum with the values of so many words of a list, from a place on and each so far behind the one before it, up to
/// the first error.
pub(crate) fn with_line(
    words: &[u64],
    first: usize,
    step: usize,
    count: usize,
    sum: Sum,
) -> Result<Sum, ErrorKind>
    requires line { IsLine words.now first step count }
    requires bounded { IsBounded (tally_of sum) }
    requires room { sum.count + count < 2 ^ 60 }
    ensures ok { IfOk result (AddsWords sum (line_of words.now first step count)) }
    ensures few { IfOk result (λ more. more.count ≤ sum.count + count) }
    ensures err { IfErr result (IsFirstError (line_of words.now first step count)) }
{
    let mut more = sum;
    let mut done = 0;
    while done < count {
        let next = BATCH.min(count - done);
        more = with_batch(words, first + done * step, step, next, more)?;
        done += next;
    }
    Ok(more)
}
