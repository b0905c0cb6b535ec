ghost use Rattle.std.specs.Prelude.{◌≡◌, ◌≢◌, ◌+◌, ◌∷◌, ◌<◌};
ghost use Rattle.std.specs.Prelude.{◌≤◌, ◌↔◌, ◌==◌, ◌^◌, length};
ghost use Rattle.std.specs.Prelude.{count_by, IsTrue, MatchOption, IfOk, cond};
ghost use Rattle.formula_syntax.specs.Spelling.{IsIntroduced, IsTooDeep, IsNoFormula};
ghost use Rattle.formula_syntax.specs.Spelling.{HasTooManyRefs, IsRead, IsAnswer};
ghost use Rattle.formula_syntax.specs.Spelling.{is_reference_token, HasNoIntroduction};
ghost use Rattle.formula_syntax.specs.Editions.{has_token, has_tokens};
ghost use Rattle.formula_syntax.specs.Lexing.{BeginsOtherwise};
ghost use Rattle.formula_syntax.specs.Grammar.{Derives};
ghost use Rattle.formula_syntax.specs.Tree.{Tree, tree_of};
ghost use Rattle.formula_syntax.specs.declared.reader.TheConstants.{MAX_FIELD};

use crate::edition::Edition;
use crate::lexer::tokens;
use crate::parser::{Unread, expression};
use crate::tokens::Token;
use crate::tree::{Formula, Node};
use sheet_refs::MAX_REFERENCES;
use std::alloc::{AllocError, Global};

/// The most bytes of a field of a sheet, and so of the text of a formula.
pub const MAX_FIELD: usize = 8_192;

/// The most parentheses that may be open at a place of a formula.
pub const MAX_DEPTH: usize = 64;

/// Why a text was not read as a formula.
#[derive(Clone, Copy, Debug, PartialEq, Eq, Drop)]
pub enum ReadRefused {
    /// The text is outside the grammar.
    NotFormula,
    /// Somewhere more than 64 parentheses are open.
    TooDeep,
    /// The text is a formula with more than 255 references.
    TooManyRefs,
    /// There was no memory for the tree.
    Memory,
}

// Whether some front of the text opens more than 64 parentheses that it doesn't close.
fn too_deep(text: &[u8]) -> bool
    requires { length text.now ≤ MAX_FIELD }
    ensures { IsTrue result ↔ IsTooDeep text.now }
{
    let mut opened = 0;
    let mut closed = 0;
    for byte in text {
        (opened, closed) = count_parentheses(*byte, opened, closed);
        if opened > closed + MAX_DEPTH {
            return true;
        }
    }
    false
}

// The numbers of opening and of closing parentheses, with one byte more.
fn count_parentheses(byte: u8, opened: usize, closed: usize) -> (usize, usize)
    requires opened { opened < 2 ^ 32 }
    requires closed { closed < 2 ^ 32 }
    ensures opened { result.0 ≡ opened + cond (byte == 40) 1 0 }
    ensures closed { result.1 ≡ closed + cond (byte == 41) 1 0 }
{
    match byte {
        b'(' => (opened + 1, closed),
        b')' => (opened, closed + 1),
        _ => (opened, closed),
    }
}

// What is behind the equals sign at the front.
fn behind_equals(text: &[u8]) -> Option<&[u8]>
    ensures { MatchOption result (BeginsOtherwise 61 text.now) (λ rest. text.now ≡ 61 ∷ rest.now) }
{
    match text.split_first() {
        Some((b'=', rest)) => Some(rest),
        _ => None,
    }
}

// What is behind the introduction of a formula.
fn behind_introduction(text: &[u8]) -> Option<&[u8]>
    ensures { MatchOption result
        (HasNoIntroduction text.now)
        (λ rest. IsIntroduced text.now rest.now) }
{
    if let Some(rest) = behind_equals(text) {
        return Some(rest);
    }
    if text.starts_with(b"of:=") {
        return Some(&text[4..]);
    }
    None
}

// How many references there are among tokens.
fn reference_count(tokens: &[Token]) -> usize
    ensures { result ≡ count_by is_reference_token tokens.now }
{
    tokens.iter().filter(|token| is_reference(token)).count()
}

fn is_reference(token: &Token) -> bool
    ensures { result ≡ is_reference_token token.now }
{
    matches!(token, Token::Reference(_))
}

// Whether an edition has each function among tokens.
fn all_within(edition: Edition, tokens: &[Token]) -> bool
    ensures { result ≡ has_tokens edition tokens.now }
{
    tokens.iter().all(|token| is_within(edition, token))
}

fn is_within(edition: Edition, token: &Token) -> bool
    ensures { result ≡ has_token edition token.now }
{
    match token {
        Token::Function(function) => edition.has(function.since()),
        Token::Number(_) | Token::Truth(_) | Token::Error(_) | Token::Reference(_) => true,
        Token::Operator(_) | Token::Open | Token::Close | Token::Separator => true,
    }
}

impl From<AllocError> for ReadRefused {
    ghost use Rattle.formula_syntax.specs.declared.reader.ReadRefused.TheVariants.{Memory};

    ghost from_gives = { λ _ refused. refused ≡ Memory };

    fn from(_: AllocError) -> Self {
        ReadRefused::Memory
    }
}

impl From<Unread> for ReadRefused {
    ghost use Rattle.formula_syntax.specs.Spelling.{refusal_of};

    ghost from_gives = { λ unread refused. refused ≡ refusal_of unread };

    fn from(unread: Unread) -> Self {
        match unread {
            Unread::NotFormula => ReadRefused::NotFormula,
            Unread::Memory => ReadRefused::Memory,
        }
    }
}

// The tree that all tokens derive.
fn read_tree(alloc: Global, tokens: &[Token]) -> Result<Node, Unread>
    ensures read { IfOk result (λ node. Derives 0 tokens.now (tree_of node)) }
    ensures not { result ≡ Err Unread.NotFormula → (t : Tree) → ¬ Derives 0 tokens.now t }
{
    let (node, rest) = expression(alloc, 0, tokens)?;
    if !rest.is_empty() {
        return Err(Unread::NotFormula);
    }
    Ok(node)
}

// Reads a formula, with the cause of each answer.
fn read(alloc: Global, text: &[u8], edition: Edition) -> Result<Formula, ReadRefused>
    requires { length text.now ≤ MAX_FIELD }
    ensures { IsAnswer edition text.now result }
{
    if too_deep(text) {
        return Err(ReadRefused::TooDeep);
    }
    let Some(rest) = behind_introduction(text) else {
        return Err(ReadRefused::NotFormula);
    };
    let tokens = tokens(alloc, rest)?;
    let root = read_tree(alloc, &tokens)?;
    if !all_within(edition, &tokens) {
        return Err(ReadRefused::NotFormula);
    }
    if reference_count(&tokens) > MAX_REFERENCES {
        return Err(ReadRefused::TooManyRefs);
    }
    Ok(Formula { root })
}

/// Reads a formula, a text of at most 8,192 bytes, with the functions of an edition. The tree is the only one that
/// the text spells.
///
/// Refuses with TooDeep exactly where some front of the text has more than 64 more `(` than `)`; else with
/// NotFormula exactly where the text is outside the grammar or names a function that the edition lacks; else with
/// TooManyRefs exactly where it writes more than 255 references; and else reads it. Memory may come before any of
/// them. The plain text of a formula that was read is such a text, and gives the same tree in the same edition
/// (`formula_laws`).
///
/// Time and memory are in proportion to the length of the text. A word that is no number and no reference is compared
/// with the names of the 25 functions. Signs and chains of operators are read by loops; the calls nest as deep as
/// parentheses and operators that grow tighter do.
pub fn read_formula(alloc: Global, text: &[u8], edition: Edition) -> Result<Formula, ReadRefused>
    requires { length text.now ≤ MAX_FIELD }
    ensures read { IfOk result (IsRead edition text.now) }
    ensures reads { (tree : Tree) → result ≢ Err ReadRefused.Memory
        → IsRead edition text.now tree → result ≡ Ok tree }
    ensures too_deep { result ≢ Err ReadRefused.Memory
        → (result ≡ Err ReadRefused.TooDeep ↔ IsTooDeep text.now) }
    ensures not_formula { result ≢ Err ReadRefused.Memory
        → (result ≡ Err ReadRefused.NotFormula ↔ IsNoFormula edition text.now) }
    ensures too_many_refs { result ≢ Err ReadRefused.Memory
        → (result ≡ Err ReadRefused.TooManyRefs ↔ HasTooManyRefs edition text.now) }
{
    read(alloc, text, edition)
}
