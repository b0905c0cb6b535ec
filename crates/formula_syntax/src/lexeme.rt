ghost use Rattle.std.specs.Prelude.{◌≡◌, ◌<◌, ◌≤◌, length, MatchOption};
ghost use Rattle.std.specs.List.{prefix_len};
ghost use Rattle.formula_syntax.specs.Lexing.{is_blank, is_word, IsWord, IsFunctionOf};
ghost use Rattle.formula_syntax.specs.declared.tokens.Token.{Token as AToken};

use crate::functions::Function;
use crate::tokens::Token;
use sheet_refs::{decimal_of, ref_of};
use value_core::{MAX_WHOLE, Whole};

/// Whether a byte is white space.
pub(crate) fn blank(byte: u8) -> bool
    ensures { result ≡ is_blank byte }
{
    byte == b' ' || byte == b'\t' || byte == b'\n' || byte == b'\r'
}

/// Whether a byte goes on with a word.
pub(crate) fn in_word(byte: u8) -> bool
    ensures { result ≡ is_word byte }
{
    byte.is_ascii_alphanumeric() || byte == b'$' || byte == b'_' || byte == b'.' || byte == b':'
}

/// How many bytes the word at the front has.
pub(crate) fn word_length(text: &[u8]) -> usize
    ensures count { result ≡ prefix_len is_word text.now }
    ensures within { result ≤ length text.now }
{
    text.iter().take_while(|byte| in_word(**byte)).count()
}

/// What a word stands for; None exactly where it stands for nothing. The time is in proportion to its length, and to
/// the number of functions where it is no number and no reference.
pub(crate) fn word_of(word: &[u8]) -> Option<Token>
    ensures { MatchOption result ((t : AToken) → ¬ IsWord word.now t) (IsWord word.now) }
{
    if let Some(number) = decimal_of(word, MAX_WHOLE as u64) {
        let number = Whole::new(number as i64).unwrap();
        return Some(Token::Number(number));
    }
    // No word is two things, and most are references: they come before the table of functions is gone through.
    if let Some(reference) = ref_of(false, word) {
        return Some(Token::Reference(reference));
    }
    if word.eq_ignore_ascii_case(b"TRUE") {
        return Some(Token::Truth(true));
    }
    if word.eq_ignore_ascii_case(b"FALSE") {
        return Some(Token::Truth(false));
    }
    let function = function_of(word)?;
    Some(Token::Function(function))
}

// The function of this name, in either case.
fn function_of(word: &[u8]) -> Option<Function>
    ensures { IsFunctionOf word.now result }
{
    for function in Function::ALL {
        if word.eq_ignore_ascii_case(function.name().as_bytes()) {
            return Some(function);
        }
    }
    None
}
