ghost use Rattle.std.specs.Prelude.{◌≡◌, ◌≢◌, ◌↔◌, ◌<◌, ◌≤◌};
ghost use Rattle.std.specs.Prelude.{◌^◌, ◌-◌, [], length, IfOk};
ghost use Rattle.std.specs.Prelude.{OnOk, OnErr, IsTrue};
ghost use Rattle.formula_syntax.specs.Spelling.{HasTooManyRefs};
ghost use Rattle.value_core.specs.Values.{error_text};
ghost use Rattle.sheet_model.specs.Sheets.{content_value};
ghost use Rattle.sheet_model.specs.Fields.{IsNumberOf, IsTruthOf, IsErrorOf, BeginsFormula};
ghost use Rattle.sheet_model.specs.Fields.{IsContent, IsDeepFormula, IsTableAfter};
ghost use Rattle.formula_syntax.specs.declared.reader.TheConstants.{MAX_FIELD};

use crate::content::Content;
use crate::labels::Labels;
use formula_syntax::{Edition, ReadRefused, read_formula};
use sheet_refs::{Memory, decimal_of};
use std::alloc::{AllocError, Global};
use std::sync::Arc;
use value_core::{ErrorKind, MAX_WHOLE, Whole};

/// Why a field was not read.
#[derive(Clone, Copy, Debug, PartialEq, Eq, Drop)]
pub enum ContentRefused {
    /// The field begins as a formula, and somewhere more than 64 parentheses are open.
    TooDeep,
    /// The field is a formula with more than 255 references.
    TooManyRefs,
    /// There was no memory for the content.
    Memory,
}

impl From<Memory> for ContentRefused {
    ghost use Rattle.sheet_model.specs.declared.fields.ContentRefused.TheVariants as refused;

    ghost from_gives = { λ _ e. e ≡ refused.Memory };

    fn from(_: Memory) -> Self {
        ContentRefused::Memory
    }
}

// The number that a field writes, with or without a sign before its digits.
fn number_of(field: &[u8]) -> Option<Whole>
    ensures { IsNumberOf field.now result }
{
    match field.split_first() {
        Some((b'-', digits)) => {
            let size = decimal_of(digits, MAX_WHOLE as u64)? as i64;
            Some(Whole::new(-size).unwrap())
        }
        Some((b'+', digits)) => {
            let size = decimal_of(digits, MAX_WHOLE as u64)? as i64;
            Some(Whole::new(size).unwrap())
        }
        _ => {
            let size = decimal_of(field, MAX_WHOLE as u64)? as i64;
            Some(Whole::new(size).unwrap())
        }
    }
}

// The truth that a field writes, in letters of either case.
fn truth_of(field: &[u8]) -> Option<bool>
    ensures { IsTruthOf field.now result }
{
    if field.eq_ignore_ascii_case(b"TRUE") {
        return Some(true);
    }
    if field.eq_ignore_ascii_case(b"FALSE") {
        return Some(false);
    }
    None
}

// Whether a field is the name of an error.
fn names(field: &[u8], kind: ErrorKind) -> bool
    ensures { IsTrue result ↔ (field.now ≡ error_text kind) }
{
    field == kind.name().as_bytes()
}

// The error whose name a field is.
fn error_of(field: &[u8]) -> Option<ErrorKind>
    ensures { IsErrorOf field.now result }
{
    if names(field, ErrorKind::Null) {
        return Some(ErrorKind::Null);
    }
    if names(field, ErrorKind::Div0) {
        return Some(ErrorKind::Div0);
    }
    if names(field, ErrorKind::Value) {
        return Some(ErrorKind::Value);
    }
    if names(field, ErrorKind::Ref) {
        return Some(ErrorKind::Ref);
    }
    if names(field, ErrorKind::Name) {
        return Some(ErrorKind::Name);
    }
    if names(field, ErrorKind::Num) {
        return Some(ErrorKind::Num);
    }
    if names(field, ErrorKind::Na) {
        return Some(ErrorKind::Na);
    }
    None
}

// Whether a field begins as a formula does.
fn begins_formula(field: &[u8]) -> bool
    ensures { IsTrue result ↔ BeginsFormula field.now }
{
    field.starts_with(b"=") || field.starts_with(b"of:=")
}

// What a field that begins as a formula holds.
fn formula_content(alloc: Global, field: &[u8], edition: Edition) -> Result<Content, ContentRefused>
    requires short { length field.now ≤ MAX_FIELD }
    requires begins { BeginsFormula field.now }
    ensures read { IfOk result (λ content. IsContent edition [] field.now (content_value content)) }
    ensures too_deep { result ≢ Err ContentRefused.Memory
        → (result ≡ Err ContentRefused.TooDeep ↔ IsDeepFormula field.now) }
    ensures too_many_refs { result ≢ Err ContentRefused.Memory
        → (result ≡ Err ContentRefused.TooManyRefs ↔ HasTooManyRefs edition field.now) }
{
    match read_formula(alloc, field, edition) {
        Ok(formula) => match Arc::new(alloc, formula) {
            Ok(formula) => Ok(Content::Formula(formula)),
            Err(_) => Err(ContentRefused::Memory),
        },
        Err(ReadRefused::NotFormula) => Ok(Content::Error(ErrorKind::Name)),
        Err(ReadRefused::TooDeep) => Err(ContentRefused::TooDeep),
        Err(ReadRefused::TooManyRefs) => Err(ContentRefused::TooManyRefs),
        Err(ReadRefused::Memory) => Err(ContentRefused::Memory),
    }
}

/// Reads a field, a text of at most 8,192 bytes: no bytes are Empty; digits, with or without a sign, that
/// write a whole number in range, a number; TRUE or FALSE in letters of either case, a truth; the name of
/// an error other than `#CIRC!`, that error; a text that begins with `=` or `of:=`, the formula that it
/// spells with the functions of an edition, and `#NAME?` where it spells none; any other text, a label.
///
/// The text of a label is in the table afterwards, and nothing else changes the table. Refuses a text that
/// begins as a formula with TooDeep exactly where more than 64 parentheses are open somewhere, and with
/// TooManyRefs exactly where it is a formula of more than 255 references; Memory may come before any of
/// them. After a refusal the table is as before. The time is in proportion to the length of the text.
pub fn read_content(
    alloc: Global,
    text: &str,
    edition: Edition,
    labels: &mut Labels,
) -> Result<Content, ContentRefused>
    requires short { length text.now ≤ 8192 }
    requires room { length labels.old < 2 ^ 32 - 1 }
    ensures read { IfOk result (λ content. IsContent edition labels.new text.now (content_value content)) }
    ensures table { OnOk result (IsTableAfter text.now labels.old labels.new) }
    ensures refused { OnErr result (labels.new ≡ labels.old) }
    ensures too_deep { result ≢ Err ContentRefused.Memory
        → (result ≡ Err ContentRefused.TooDeep ↔ IsDeepFormula text.now) }
    ensures too_many_refs { result ≢ Err ContentRefused.Memory
        → (result ≡ Err ContentRefused.TooManyRefs ↔ HasTooManyRefs edition text.now) }
{
    let field = text.as_bytes();
    if field.is_empty() {
        return Ok(Content::Empty);
    }
    if let Some(number) = number_of(field) {
        return Ok(Content::Number(number));
    }
    if let Some(truth) = truth_of(field) {
        return Ok(Content::Truth(truth));
    }
    if let Some(kind) = error_of(field) {
        return Ok(Content::Error(kind));
    }
    if begins_formula(field) {
        return formula_content(alloc, field, edition);
    }
    let place = labels.intern(text)?;
    Ok(Content::Label(place))
}
