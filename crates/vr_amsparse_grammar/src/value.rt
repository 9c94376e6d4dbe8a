//! What may stand as a value.
ghost use Rattle.std.specs.Prelude.{◌≡◌, ◌==◌, List, IfOk, if◌then◌else◌, bytes_eq};
ghost use Rattle.std.specs.List.{list_any};
ghost use Rattle.vr_amsparse_grammar.specs.Judging.{value_fault, name_fault, class_fault};
ghost use Rattle.vr_amsparse_grammar.specs.Judging.{data_fault, serial_fault, log_fault, text_fault};
ghost use Rattle.vr_amsparse_grammar.specs.Judging.{number_fault, range_fault, key_fault, begins_quoted};
ghost use Rattle.vr_amsparse_grammar.specs.Words.{is_class};

use crate::cause::AmsCause;
use crate::data_names::DataNames;
use crate::row::{Range, Value};
use std::alloc::Global;
use vr_scan::TokenKind;
use vr_text::{name_in, number_in};
use vr_types::OutOfMemory;

/// What is wrong with a token as the value in a place, counted from 0.
pub fn judge(
    alloc: Global,
    value: Value,
    place: usize,
    kind: TokenKind,
    text: &[u8],
    names: &DataNames,
) -> Result<Option<AmsCause>, OutOfMemory>
    ensures { IfOk result (λ cause. cause ≡ value_fault value place kind text.now names.now) }
{
    match value {
        Value::Name => name_fault(alloc, kind, text),
        Value::Class => class_fault(alloc, kind, text),
        Value::Data => Ok(data_fault(kind, text, names)),
        Value::Serial => Ok(serial_fault(kind, text)),
        Value::Log => Ok(log_fault(kind, text)),
        Value::Text => Ok(text_fault(kind)),
        Value::Key => Ok(key_fault(kind, text)),
        Value::Number { first, second } => {
            Ok(number_fault(if place == 0 { first } else { second }, kind, text))
        }
    }
}

/// A data set is named by a word that is its name. One with `*` is left out.
fn name_fault(alloc: Global, kind: TokenKind, text: &[u8]) -> Result<Option<AmsCause>, OutOfMemory>
    ensures { IfOk result (λ cause. cause ≡ name_fault kind text.now) }
{
    match kind {
        TokenKind::Word => {
            if text.contains(&b'*') {
                Ok(Some(AmsCause::LeftOut))
            } else if name_in(alloc, text)?.is_some() {
                Ok(None)
            } else {
                Ok(Some(AmsCause::BadName))
            }
        }
        _ => Ok(Some(AmsCause::BadName)),
    }
}

/// Whether a text is a name without a dot.
fn is_class(alloc: Global, text: &[u8]) -> Result<bool, OutOfMemory>
    ensures { IfOk result (λ answer. answer ≡ is_class text.now) }
{
    if text.contains(&b'.') {
        return Ok(false);
    }
    Ok(name_in(alloc, text)?.is_some())
}

/// A class is named by a word that is a name without a dot.
fn class_fault(alloc: Global, kind: TokenKind, text: &[u8]) -> Result<Option<AmsCause>, OutOfMemory>
    ensures { IfOk result (λ cause. cause ≡ class_fault kind text.now) }
{
    match kind {
        TokenKind::Word => {
            if is_class(alloc, text)? {
                Ok(None)
            } else {
                Ok(Some(AmsCause::BadName))
            }
        }
        _ => Ok(Some(AmsCause::BadName)),
    }
}

/// Data of the step is named by a word.
fn data_fault(kind: TokenKind, text: &[u8], names: &DataNames) -> Option<AmsCause>
    ensures { result ≡ data_fault kind text.now names.now }
{
    match kind {
        TokenKind::Word => {
            if names.has(text) {
                None
            } else {
                Some(AmsCause::NoSuchData)
            }
        }
        _ => Some(AmsCause::BadName),
    }
}

/// A serial is a word of 1 to 6 characters.
fn serial_fault(kind: TokenKind, text: &[u8]) -> Option<AmsCause>
    ensures { result ≡ serial_fault kind text.now }
{
    match kind {
        TokenKind::Word => {
            if !text.is_empty() && text.len() <= 6 {
                None
            } else {
                Some(AmsCause::BadName)
            }
        }
        _ => Some(AmsCause::BadName),
    }
}

/// LOG takes UNDO; NONE and ALL are left out.
fn log_fault(kind: TokenKind, text: &[u8]) -> Option<AmsCause>
    ensures { result ≡ log_fault kind text.now }
{
    match kind {
        TokenKind::Word => {
            if text == b"UNDO".as_slice() {
                None
            } else if text == b"NONE".as_slice() || text == b"ALL".as_slice() {
                Some(AmsCause::LeftOut)
            } else {
                Some(AmsCause::UnknownParameter)
            }
        }
        _ => Some(AmsCause::UnknownParameter),
    }
}

/// A literal, or a word that stands for its characters.
fn text_fault(kind: TokenKind) -> Option<AmsCause>
    ensures { result ≡ text_fault kind }
{
    match kind {
        TokenKind::Word | TokenKind::Characters | TokenKind::Hex => None,
        _ => Some(AmsCause::BadLiteral),
    }
}

/// Whether a word begins with a quote.
fn begins_quoted(text: &[u8]) -> bool
    ensures { result ≡ begins_quoted text.now }
{
    !text.is_empty() && text[0] == b'\''
}

/// A key is a literal, or a word that stands for its characters. A word that begins with a quote is
/// a literal without its letter.
fn key_fault(kind: TokenKind, text: &[u8]) -> Option<AmsCause>
    ensures { result ≡ key_fault kind text.now }
{
    match kind {
        TokenKind::Word => {
            if !begins_quoted(text) {
                None
            } else {
                Some(AmsCause::BadLiteral)
            }
        }
        _ => text_fault(kind),
    }
}

/// A number is a word of digits, and within the range.
pub fn number_fault(range: Range, kind: TokenKind, text: &[u8]) -> Option<AmsCause>
    ensures { result ≡ number_fault range kind text.now }
{
    match kind {
        TokenKind::Word => range_fault(range, number_in(text)),
        _ => Some(AmsCause::BadNumber),
    }
}

/// What is wrong with a number, if there is one.
fn range_fault(range: Range, number: Option<u64>) -> Option<AmsCause>
    ensures { result ≡ range_fault range number }
{
    match number {
        None => Some(AmsCause::BadNumber),
        Some(number) => {
            if range.least <= number && number <= range.most {
                None
            } else {
                Some(AmsCause::NumberOutOfRange)
            }
        }
    }
}
