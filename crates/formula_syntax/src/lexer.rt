ghost use Rattle.std.specs.Prelude.{◌≡◌, ◌<◌, ◌≤◌, ◌^◌, ◌∷◌, List, length, MatchOption};
ghost use Rattle.std.specs.Prelude.{IfOk};
ghost use Rattle.formula_syntax.specs.Fixed.{single_of, less_of, greater_of, error_of, fixed_of};
ghost use Rattle.formula_syntax.specs.Lexing.{StartsWord, IsFront, HasNoToken, HasTokens};
ghost use Rattle.formula_syntax.specs.Lexing.{BeginsOtherwise, past_blanks};
ghost use Rattle.formula_syntax.specs.declared.tokens.Token.{Token as AToken};

use crate::lexeme::{blank, in_word, word_length, word_of};
use crate::parser::Unread;
use crate::tokens::Token;
use sheet_refs::ref_of;
use std::alloc::Global;
use value_core::{BinaryOp, ErrorKind};

// A token of one byte with which no longer one begins.
fn single(byte: u8) -> Option<Token>
    ensures { result ≡ single_of byte }
{
    match byte {
        b'+' => Some(Token::Operator(BinaryOp::Add)),
        b'-' => Some(Token::Operator(BinaryOp::Sub)),
        b'*' => Some(Token::Operator(BinaryOp::Mul)),
        b'/' => Some(Token::Operator(BinaryOp::Div)),
        b'^' => Some(Token::Operator(BinaryOp::Power)),
        b'=' => Some(Token::Operator(BinaryOp::Equal)),
        b'(' => Some(Token::Open),
        b')' => Some(Token::Close),
        b';' => Some(Token::Separator),
        b',' => Some(Token::Separator),
        _ => None,
    }
}

// The longest operator that begins with `<`, by what follows.
fn less(rest: &[u8]) -> (Token, usize)
    ensures { result ≡ less_of rest.now }
{
    match rest.first() {
        Some(b'=') => (Token::Operator(BinaryOp::LessEqual), 2),
        Some(b'>') => (Token::Operator(BinaryOp::Unequal), 2),
        _ => (Token::Operator(BinaryOp::Less), 1),
    }
}

// The longest operator that begins with `>`, by what follows.
fn greater(rest: &[u8]) -> (Token, usize)
    ensures { result ≡ greater_of rest.now }
{
    match rest.first() {
        Some(b'=') => (Token::Operator(BinaryOp::GreaterEqual), 2),
        _ => (Token::Operator(BinaryOp::Greater), 1),
    }
}

// The error whose name goes on so behind its `#`.
fn error(rest: &[u8]) -> Option<(Token, usize)>
    ensures { result ≡ error_of rest.now }
{
    if rest.starts_with(b"NULL!") {
        return Some((Token::Error(ErrorKind::Null), 6));
    }
    if rest.starts_with(b"DIV/0!") {
        return Some((Token::Error(ErrorKind::Div0), 7));
    }
    if rest.starts_with(b"VALUE!") {
        return Some((Token::Error(ErrorKind::Value), 7));
    }
    if rest.starts_with(b"REF!") {
        return Some((Token::Error(ErrorKind::Ref), 5));
    }
    if rest.starts_with(b"NAME?") {
        return Some((Token::Error(ErrorKind::Name), 6));
    }
    if rest.starts_with(b"NUM!") {
        return Some((Token::Error(ErrorKind::Num), 5));
    }
    if rest.starts_with(b"N/A") {
        return Some((Token::Error(ErrorKind::Na), 4));
    }
    None
}

// A token that is always written alike, by its first byte and what follows.
fn fixed_token(first: u8, rest: &[u8]) -> Option<(Token, usize)>
    ensures { result ≡ fixed_of first rest.now }
{
    match first {
        b'<' => Some(less(rest)),
        b'>' => Some(greater(rest)),
        b'#' => error(rest),
        _ => {
            let token = single(first)?;
            Some((token, 1))
        }
    }
}

// The token at the front of a text that begins with a word's byte, and its length.
fn word_at(text: &[u8]) -> Option<(Token, usize)>
    requires { StartsWord text.now }
    ensures { MatchOption result (HasNoToken text.now) (IsFront text.now) }
{
    let length = word_length(text);
    let token = word_of(&text[..length])?;
    Some((token, length))
}

// What is behind a closing bracket at the front.
fn behind_bracket(text: &[u8]) -> Option<&[u8]>
    ensures { MatchOption result (BeginsOtherwise 93 text.now) (λ tail. text.now ≡ 93 ∷ tail.now) }
{
    match text.split_first() {
        Some((b']', tail)) => Some(tail),
        _ => None,
    }
}

// The token at the front of a text that goes on so behind a bracket, and its length with the bracket.
fn bracketed_at(inner: &[u8]) -> Option<(Token, usize)>
    requires { length inner.now < 2 ^ 32 }
    ensures { MatchOption result (HasNoToken (91 ∷ inner.now)) (IsFront (91 ∷ inner.now)) }
{
    let length = word_length(inner);
    behind_bracket(&inner[length..])?;
    let reference = ref_of(true, &inner[..length])?;
    Some((Token::Reference(reference), length + 2))
}

// The token at the front of a text, and its length; None exactly where none stands there.
fn token_at(text: &[u8]) -> Option<(Token, usize)>
    requires { length text.now < 2 ^ 32 }
    ensures { MatchOption result (HasNoToken text.now) (IsFront text.now) }
{
    let Some((first, rest)) = text.split_first() else {
        return None;
    };
    if in_word(*first) {
        return word_at(text);
    }
    if *first == b'[' {
        return bracketed_at(rest);
    }
    fixed_token(*first, rest)
}

// A text without the white space at its front.
fn after_blanks(text: &[u8]) -> &[u8]
    ensures { result.now ≡ past_blanks text.now }
{
    let mut rest = text;
    while let Some((first, behind)) = rest.split_first() {
        if !blank(*first) {
            return rest;
        }
        rest = behind;
    }
    rest
}

/// The tokens of a text. NotFormula exactly where it isn't made of tokens and white space, unless memory
/// runs out. Each word is gone through a fixed number of times, so that time and memory are in proportion to the text.
pub(crate) fn tokens(alloc: Global, text: &[u8]) -> Result<Vec<Token>, Unread>
    requires { length text.now < 2 ^ 32 }
    ensures read { IfOk result (λ tokens. HasTokens text.now tokens.items) }
    ensures few { IfOk result (λ tokens. length tokens.items ≤ length text.now) }
    ensures not { result ≡ Err Unread.NotFormula → (ts : List AToken) → ¬ HasTokens text.now ts }
{
    let mut tokens = Vec::new(alloc);
    let mut rest = after_blanks(text);
    while !rest.is_empty() {
        let Some((token, length)) = token_at(rest) else {
            return Err(Unread::NotFormula);
        };
        tokens.push(token)?;
        rest = after_blanks(&rest[length..]);
    }
    Ok(tokens)
}
