// The words after a command's name, read with clap.
ghost use Rattle.std.specs.Prelude.{◌≡◌, ◌≢◌, ◌↔◌, ◌∷◌, ℕ, List, [], length};
ghost use Rattle.std.specs.Prelude.{IsTrue, IfOk, MatchOption, All, string_bytes};
ghost use Rattle.clap.specs.Simple.{app_of};
ghost use Rattle.clap.specs.Values.{kind_of};
ghost use Rattle.sheet_cli.specs.Clap.{one_position, two_positions};
ghost use Rattle.sheet_cli.specs.Words.{AreThreePositions, AreTwoPositions, IsOnePosition, IsOption};
ghost use Rattle.sheet_cli.specs.Words.{bytes_of};

use clap::error::ErrorKind;
use clap::{Arg, Command, Error};
use sheet_refs::Memory;
use std::alloc::{AllocError, Global};

/// The most digits that write a number among the words, that of an edit or of a generated run.
pub(crate) const MAX_DIGITS: usize = 10;

/// The greatest such number.
pub(crate) const MAX_NUMBER: u64 = 4_294_967_295;

/// The position of a command that has one and no option; None exactly where the words are anything else.
pub(crate) fn one_word<'a>(alloc: Global, words: &'a [String]) -> Result<Option<&'a str>, Memory>
    ensures { IfOk result (λ found.
        MatchOption found ((word : List ℕ) → ¬ IsOnePosition (bytes_of words.now) word)
        (λ word. IsOnePosition (bytes_of words.now) word.now)) }
{
    if !are_positions(words) {
        return Ok(None);
    }
    match_one(alloc, words)
}

/// The positions of a command that has two and no option; None exactly where the words are anything else.
pub(crate) fn two_words<'a>(
    alloc: Global,
    words: &'a [String],
) -> Result<Option<(&'a str, &'a str)>, Memory>
    ensures { IfOk result (λ found.
        MatchOption found ((first second : List ℕ) → ¬ AreTwoPositions (bytes_of words.now) first second)
        (λ pair. AreTwoPositions (bytes_of words.now) pair.0.now pair.1.now)) }
{
    if !are_positions(words) {
        return Ok(None);
    }
    match_two(alloc, words)
}

/// The positions of a command that has three and no option; None exactly where the words are anything else.
pub(crate) fn three_words<'a>(
    alloc: Global,
    words: &'a [String],
) -> Result<Option<(&'a str, &'a str, &'a str)>, Memory>
    ensures { IfOk result (λ found.
        MatchOption found ((first second third : List ℕ)
        → ¬ AreThreePositions (bytes_of words.now) first second third)
        (λ three. AreThreePositions (bytes_of words.now) three.0.now three.1.now three.2.now)) }
{
    // With the first one taken off, those are left of a command that has two.
    let Some((first, rest)) = words.split_first() else {
        return Ok(None);
    };
    if is_option(first.as_str()) {
        return Ok(None);
    }
    let Some((second, third)) = two_words(alloc, rest)? else {
        return Ok(None);
    };
    Ok(Some((first.as_str(), second, third)))
}

// Whether none of the words is written as an option.
fn are_positions(words: &[String]) -> bool
    ensures { IsTrue result ↔ All (λ w. ¬ IsOption (string_bytes w)) words.now }
{
    words.iter().all(|word| !is_option(word.as_str()))
}

/// Whether a word is written as an option is: it begins with a dash.
pub(crate) fn is_option(word: &str) -> bool
    ensures { IsTrue result ↔ IsOption word.now }
{
    word.as_bytes().first() == Some(&b'-')
}

// The one of these words.
fn match_one<'a>(alloc: Global, words: &'a [String]) -> Result<Option<&'a str>, Memory>
    requires plain { All (λ w. ¬ IsOption w) (bytes_of words.now) }
    ensures { IfOk result (λ found. MatchOption found (length (bytes_of words.now) ≢ 1)
        (λ word. bytes_of words.now ≡ word.now ∷ [])) }
{
    match one_position(alloc)?.try_get_matches_from(words) {
        Ok(matches) => Ok(Some(matches.get_str("first").unwrap())),
        Err(error) => {
            if ran_out(&error) {
                Err(Memory)
            } else {
                Ok(None)
            }
        }
    }
}

// The two of these words.
fn match_two<'a>(alloc: Global, words: &'a [String]) -> Result<Option<(&'a str, &'a str)>, Memory>
    requires plain { All (λ w. ¬ IsOption w) (bytes_of words.now) }
    ensures { IfOk result (λ found. MatchOption found (length (bytes_of words.now) ≢ 2)
        (λ pair. bytes_of words.now ≡ pair.0.now ∷ pair.1.now ∷ [])) }
{
    match two_positions(alloc)?.try_get_matches_from(words) {
        Ok(matches) => {
            let first = matches.get_str("first").unwrap();
            let second = matches.get_str("second").unwrap();
            Ok(Some((first, second)))
        }
        Err(error) => {
            if ran_out(&error) {
                Err(Memory)
            } else {
                Ok(None)
            }
        }
    }
}

// Whether a parse failed for want of memory.
fn ran_out(error: &Error) -> bool
    ensures { IsTrue result ↔ kind_of error.now ≡ ErrorKind.OutOfMemory }
{
    error.kind() == ErrorKind::OutOfMemory
}

// A command of one position, without options.
fn one_position<'a>(alloc: Global) -> Result<Command<'a>, AllocError>
    ensures { IfOk result (λ c. app_of c ≡ one_position) }
{
    let first = Arg::new(alloc, "first").required(true);
    Command::new(alloc, "command")
        .no_binary_name(true)
        .disable_help_flag(true)
        .arg(first)
}

// A command of two positions, without options.
fn two_positions<'a>(alloc: Global) -> Result<Command<'a>, AllocError>
    ensures { IfOk result (λ c. app_of c ≡ two_positions) }
{
    let first = Arg::new(alloc, "first").required(true);
    let second = Arg::new(alloc, "second").required(true);
    Command::new(alloc, "command")
        .no_binary_name(true)
        .disable_help_flag(true)
        .arg(first)?
        .arg(second)
}
