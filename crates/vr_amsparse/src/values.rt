//! The values of given parameters.
ghost use Rattle.std.specs.Prelude.{◌≡◌, ◌+◌, ◌++◌, IfOk, OnOk};
ghost use Rattle.vr_text.specs.Words.{name_in};
ghost use Rattle.vr_amsparse.specs.Values.{text_at, value_text, number_value, number_for, name_for};
ghost use Rattle.vr_amsparse.specs.Values.{text_if, text_for, listed, names_below, names_for, choice_for};
ghost use Rattle.vr_amsparse.specs.Values.{is_first, is_second};

use std::alloc::Global;
use vr_amsparse_grammar::{Choice, Given, Slot, given_for};
use vr_catalog::NameList;
use vr_scan::Tokens;
use vr_text::{name_in, number_in};
use vr_types::{Bytes, Name, OutOfMemory, bytes};

/// The text of the token that stands so many tokens after another, empty past the last.
pub(crate) fn text_after(tokens: &Tokens, at: usize, ahead: usize) -> &[u8]
    ensures { result.now ≡ text_at tokens.now (at + ahead) }
{
    let len = tokens.len();
    if at < len && ahead < len - at {
        tokens.text(at + ahead)
    } else {
        b""
    }
}

/// The text of a value, counted from 0, empty past the last token.
pub(crate) fn value_text(tokens: &Tokens, given: Given, place: usize) -> &[u8]
    ensures { result.now ≡ value_text tokens.now given place }
{
    let len = tokens.len();
    if given.opened < len && place < len - given.opened - 1 {
        tokens.text(given.opened + 1 + place)
    } else {
        b""
    }
}

/// A number, or the default where it wasn't given.
fn number_value(tokens: &Tokens, given: Option<Given>, place: usize, default: u64) -> u64
    ensures { result ≡ number_value tokens.now given place default }
{
    match given {
        None => default,
        Some(given) => {
            if place < given.count {
                number_in(value_text(tokens, given, place)).unwrap_or(0)
            } else {
                default
            }
        }
    }
}

/// A number, or the default where it wasn't given.
pub(crate) fn number_for(
    tokens: &Tokens,
    given: &[Given],
    slot: Slot,
    place: usize,
    default: u64,
) -> u64
    ensures { result ≡ number_for tokens.now given.now slot place default }
{
    number_value(tokens, given_for(given, slot), place, default)
}

/// The name of a parameter, if it was given.
pub(crate) fn name_for(
    alloc: Global,
    tokens: &Tokens,
    given: &[Given],
    slot: Slot,
) -> Result<Option<Name>, OutOfMemory>
    ensures { IfOk result (λ name. name ≡ name_for tokens.now given.now slot) }
{
    match given_for(given, slot) {
        None => Ok(None),
        Some(one) => name_in(alloc, value_text(tokens, one, 0)),
    }
}

/// A text, if it was given.
pub(crate) fn text_if(
    alloc: Global,
    tokens: &Tokens,
    given: &[Given],
    slot: Slot,
) -> Result<Option<Bytes>, OutOfMemory>
    ensures { IfOk result (λ text. text ≡ text_if tokens.now given.now slot) }
{
    match given_for(given, slot) {
        None => Ok(None),
        Some(one) => Ok(Some(bytes(alloc, value_text(tokens, one, 0))?)),
    }
}

/// A text, empty where it wasn't given.
pub(crate) fn text_for(
    alloc: Global,
    tokens: &Tokens,
    given: &[Given],
    slot: Slot,
) -> Result<Bytes, OutOfMemory>
    ensures { IfOk result (λ text. text ≡ text_for tokens.now given.now slot) }
{
    match given_for(given, slot) {
        None => Ok(Bytes::new(alloc)),
        Some(one) => bytes(alloc, value_text(tokens, one, 0)),
    }
}

/// Adds the name that a text spells, if it spells one.
fn push_name(alloc: Global, names: &mut NameList, text: &[u8]) -> Result<(), OutOfMemory>
    ensures { OnOk result (names.new ≡ names.old ++ listed (name_in text.now)) }
{
    match name_in(alloc, text)? {
        None => Ok(()),
        Some(name) => Ok(names.push(name)?),
    }
}

/// The names of a parameter that was given.
fn names_of(alloc: Global, tokens: &Tokens, given: Given) -> Result<NameList, OutOfMemory>
    ensures { IfOk result (λ names. names ≡ names_below tokens.now given given.count) }
{
    let mut names = NameList::new(alloc);
    for place in 0..given.count {
        push_name(alloc, &mut names, value_text(tokens, given, place))?;
    }
    Ok(names)
}

/// All names of a parameter, none where it wasn't given.
pub(crate) fn names_for(
    alloc: Global,
    tokens: &Tokens,
    given: &[Given],
    slot: Slot,
) -> Result<NameList, OutOfMemory>
    ensures { IfOk result (λ names. names ≡ names_for tokens.now given.now slot) }
{
    match given_for(given, slot) {
        None => Ok(NameList::new(alloc)),
        Some(one) => names_of(alloc, tokens, one),
    }
}

/// Which of the words of a slot was given.
pub(crate) fn choice_for(given: &[Given], slot: Slot) -> Option<Choice>
    ensures { result ≡ choice_for given.now slot }
{
    match given_for(given, slot) {
        None => None,
        Some(one) => Some(one.states.choice),
    }
}

/// Whether the first of the words was given.
pub(crate) fn is_first(choice: Option<Choice>) -> bool
    ensures { result ≡ is_first choice }
{
    match choice {
        Some(Choice::First) => true,
        Some(Choice::Second) => false,
        Some(Choice::Third) => false,
        None => false,
    }
}

/// Whether the second of the words was given.
pub(crate) fn is_second(choice: Option<Choice>) -> bool
    ensures { result ≡ is_second choice }
{
    match choice {
        Some(Choice::First) => false,
        Some(Choice::Second) => true,
        Some(Choice::Third) => false,
        None => false,
    }
}
