// The option for the number of workers, which is taken out of words before their positions are read.
ghost use Rattle.std.specs.Prelude.{◌≡◌, ◌≢◌, ℕ, List, ◌∷◌, ◌++◌, All, IfOk, MatchOption, OnOk};
ghost use Rattle.std.specs.Prelude.{String, codes, string_bytes};
ghost use Rattle.std.specs.declared.alloc.Global.{Global as Heap};
ghost use Rattle.sheet_refs.specs.Names.{Finds};
ghost use Rattle.sheet_cli.specs.Options.{HasTaken};
ghost use Rattle.sheet_cli.specs.Words.{IsOption, IsWorkers, bytes_of};

use crate::positions::is_option;
use sheet_refs::{Memory, decimal_of};
use std::alloc::Global;

/// The number of workers where no word gives one.
const WORKERS: u32 = 4;

/// The most workers, and the most digits that write their number.
const MAX_WORKERS: u64 = 64;

const MAX_DIGITS: usize = 2;

/// Words without the option for the number of workers, and that number.
#[derive(Drop)]
pub(crate) struct Taken {
    pub(crate) words: Vec<String>,
    pub(crate) workers: u32,
}

/// Takes the option for the number of workers out of words; None exactly where the first word that is written as an
/// option is another one, or gives no number from 1 to 64.
pub(crate) fn take_workers(alloc: Global, words: &[String]) -> Result<Option<Taken>, Memory>
    ensures { IfOk result (HasTaken (bytes_of words.now)) }
{
    let (before, behind) = split_plain(words);
    match behind.split_first() {
        Some((option, after)) => take_option(alloc, before, option.as_str(), after),
        None => Ok(Some(Taken {
            words: join_words(alloc, before, behind)?,
            workers: WORKERS,
        })),
    }
}

// The words before the first one that is written as an option, and those from it on.
fn split_plain(words: &[String]) -> (&[String], &[String])
    ensures parts { words.now ≡ result.0.now ++ result.1.now }
    ensures plain { All (λ word. ¬ IsOption (string_bytes word)) result.0.now }
    ensures option { (word : String Heap) (after : List (String Heap)) → result.1.now ≡ word ∷ after
        → IsOption (string_bytes word) }
{
    match words.iter().position(|word| is_option(word.as_str())) {
        Some(place) => words.split_at(place),
        None => words.split_at(words.len()),
    }
}

// Takes the option out of words of which it is the first that is written as one.
fn take_option(
    alloc: Global,
    before: &[String],
    option: &str,
    after: &[String],
) -> Result<Option<Taken>, Memory>
    requires plain { All (λ word. ¬ IsOption (string_bytes word)) before.now }
    requires option { IsOption option.now }
    ensures { IfOk result (HasTaken (bytes_of before.now ++ option.now ∷ bytes_of after.now)) }
{
    match option {
        "--workers" => take_parted(alloc, before, after),
        _ => take_joined(alloc, before, option, after),
    }
}

// Takes `--workers` and the word behind it out of words.
fn take_parted(alloc: Global, before: &[String], after: &[String]) -> Result<Option<Taken>, Memory>
    requires { All (λ word. ¬ IsOption (string_bytes word)) before.now }
    ensures { IfOk result (HasTaken (bytes_of before.now ++ codes "--workers" ∷ bytes_of after.now)) }
{
    match after.split_first() {
        Some((digits, after)) => take_number(alloc, before, digits.as_bytes(), after),
        None => Ok(None),
    }
}

// Takes `--workers=N` out of words.
fn take_joined(
    alloc: Global,
    before: &[String],
    option: &str,
    after: &[String],
) -> Result<Option<Taken>, Memory>
    requires plain { All (λ word. ¬ IsOption (string_bytes word)) before.now }
    requires option { IsOption option.now }
    requires other { option.now ≢ codes "--workers" }
    ensures { IfOk result (HasTaken (bytes_of before.now ++ option.now ∷ bytes_of after.now)) }
{
    match digits_in(option) {
        Some(digits) => take_number(alloc, before, digits, after),
        None => Ok(None),
    }
}

// What stands behind `--workers=` in a word that begins so.
fn digits_in(option: &str) -> Option<&[u8]>
    ensures { MatchOption result ((digits : List ℕ) → option.now ≢ codes "--workers=" ++ digits)
        (λ digits. option.now ≡ codes "--workers=" ++ digits.now) }
{
    option.as_bytes().strip_prefix(b"--workers=")
}

// The words on both sides of the option, and the number that these digits write.
fn take_number(
    alloc: Global,
    before: &[String],
    digits: &[u8],
    after: &[String],
) -> Result<Option<Taken>, Memory>
    ensures { IfOk result (λ found. MatchOption found ((workers : ℕ) → ¬ IsWorkers digits.now workers)
        (λ taken. IsWorkers digits.now taken.workers
        × (bytes_of taken.words.items ≡ bytes_of before.now ++ bytes_of after.now))) }
{
    let Some(workers) = workers_of(digits) else {
        return Ok(None);
    };
    Ok(Some(Taken {
        words: join_words(alloc, before, after)?,
        workers,
    }))
}

// The number of workers that digits write.
fn workers_of(digits: &[u8]) -> Option<u32>
    ensures { Finds result (IsWorkers digits.now) }
{
    if digits.len() > MAX_DIGITS {
        return None;
    }
    let workers = decimal_of(digits, MAX_WORKERS)?;
    if workers == 0 {
        return None;
    }
    Some(workers as u32)
}

// Copies of words and of others behind them.
fn join_words(alloc: Global, before: &[String], after: &[String]) -> Result<Vec<String>, Memory>
    ensures { IfOk result (λ words. bytes_of words.items ≡ bytes_of before.now ++ bytes_of after.now) }
{
    let mut words = Vec::new(alloc);
    push_words(&mut words, before)?;
    push_words(&mut words, after)?;
    Ok(words)
}

// Pushes copies of words.
fn push_words(words: &mut Vec<String>, others: &[String]) -> Result<(), Memory>
    ensures { OnOk result (bytes_of words.new.items ≡ bytes_of words.old.items ++ bytes_of others.now) }
{
    for place in 0..others.len() {
        words.push(others[place].clone()?)?;
    }
    Ok(())
}
