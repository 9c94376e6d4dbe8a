//! The operands of a line.
ghost use Rattle.std.specs.Prelude.{◌≡◌, OnOk, IfOk, IfErr, Ok};
ghost use Rattle.vr_deck_text.specs.Words.{words};
ghost use Rattle.vr_deck_text.specs.Operands.{StopsBy, none_given, with_key, with_data, with_rba};
ghost use Rattle.vr_deck_text.specs.Operands.{with_rrn, with_value, with_operand, with_word};
ghost use Rattle.vr_deck_text.specs.Operands.{with_words, operands_in};

use crate::fault::{DeckCause, Stop};
use crate::row::{Operand, Row, Settles, Value, covers, joined, operand_named, overlaps};
use crate::tables::NOTHING;
use crate::text::At;
use crate::value::{literal_in, small_number_in};
use crate::word::{next_word, split_keyword};
use std::alloc::Global;
use vr_types::{Bytes, Integrity};

/// The operands of a line so far: what they settle, and their values.
#[derive(Drop)]
pub(crate) struct Given {
    pub settles: Settles,
    pub at: Option<At>,
    pub integrity: Option<Integrity>,
    pub bytes: Bytes,
}

/// No operand, which takes no memory.
fn none_given(alloc: Global) -> Given
    ensures { result ≡ none_given }
{
    Given {
        settles: NOTHING,
        at: None,
        integrity: None,
        bytes: Bytes::new(alloc),
    }
}

/// The operands of a text, after these rows, where they settle what they have to.
pub(crate) fn operands_in(
    alloc: Global,
    rows: &[Row],
    needs: Settles,
    text: &[u8],
) -> Result<Given, Stop>
    ensures ok { IfOk result (λ given. operands_in rows.now needs (words text.now) ≡ Ok given) }
    ensures stop { IfErr result (StopsBy (operands_in rows.now needs (words text.now))) }
{
    let mut given = none_given(alloc);
    match take_words(alloc, &mut given, rows, text) {
        Err(stop) => Err(stop),
        Ok(()) => {
            if covers(given.settles, needs) {
                Ok(given)
            } else {
                Err(Stop::Bad(DeckCause::Operands))
            }
        }
    }
}

/// Takes each word of a text as an operand.
fn take_words(alloc: Global, given: &mut Given, rows: &[Row], text: &[u8]) -> Result<(), Stop>
    ensures ok { OnOk result (with_words rows.now (Ok given.old) (words text.now) ≡ Ok given.new) }
    ensures stop { IfErr result (StopsBy (with_words rows.now (Ok given.old) (words text.now))) }
{
    let mut rest = text;
    while let Some(cut) = next_word(rest) {
        match take_word(alloc, given, rows, cut.word) {
            Ok(()) => {}
            Err(stop) => return Err(stop),
        }
        rest = cut.rest;
    }
    Ok(())
}

/// Takes a word as an operand.
fn take_word(alloc: Global, given: &mut Given, rows: &[Row], word: &[u8]) -> Result<(), Stop>
    ensures ok { OnOk result (with_word rows.now given.old word.now ≡ Ok given.new) }
    ensures stop { IfErr result (StopsBy (with_word rows.now given.old word.now)) }
{
    let cut = split_keyword(word);
    match operand_named(rows, cut.word) {
        None => Err(Stop::Bad(DeckCause::UnknownOperand)),
        Some(operand) => take_operand(alloc, given, operand, cut.rest),
    }
}

/// Takes an operand, unless one before excludes it.
fn take_operand(
    alloc: Global,
    given: &mut Given,
    operand: Operand,
    value: &[u8],
) -> Result<(), Stop>
    ensures ok { OnOk result (with_operand given.old operand value.now ≡ Ok given.new) }
    ensures stop { IfErr result (StopsBy (with_operand given.old operand value.now)) }
{
    if overlaps(given.settles, operand.settles) {
        return Err(Stop::Bad(DeckCause::Operands));
    }
    given.settles = joined(given.settles, operand.settles);
    take_value(alloc, given, operand.value, value)
}

/// Takes the value of an operand.
fn take_value(alloc: Global, given: &mut Given, value: Value, text: &[u8]) -> Result<(), Stop>
    ensures ok { OnOk result (with_value given.old value text.now ≡ Ok given.new) }
    ensures stop { IfErr result (StopsBy (with_value given.old value text.now)) }
{
    match value {
        Value::Key => take_key(alloc, given, text),
        Value::Rba => take_rba(given, text),
        Value::Rrn => take_rrn(given, text),
        Value::Data => take_data(alloc, given, text),
        Value::Nothing => Ok(()),
        Value::Integrity(integrity) => {
            given.integrity = Some(integrity);
            Ok(())
        }
    }
}

/// Takes a key.
fn take_key(alloc: Global, given: &mut Given, text: &[u8]) -> Result<(), Stop>
    ensures ok { OnOk result (with_key given.old text.now ≡ Ok given.new) }
    ensures stop { IfErr result (StopsBy (with_key given.old text.now)) }
{
    match literal_in(alloc, text)? {
        None => Err(Stop::Bad(DeckCause::BadLiteral)),
        Some(key) => {
            given.at = Some(At::Key(key));
            Ok(())
        }
    }
}

/// Takes the bytes of a record.
fn take_data(alloc: Global, given: &mut Given, text: &[u8]) -> Result<(), Stop>
    ensures ok { OnOk result (with_data given.old text.now ≡ Ok given.new) }
    ensures stop { IfErr result (StopsBy (with_data given.old text.now)) }
{
    match literal_in(alloc, text)? {
        None => Err(Stop::Bad(DeckCause::BadLiteral)),
        Some(bytes) => {
            given.bytes = bytes;
            Ok(())
        }
    }
}

/// Takes a relative byte address.
fn take_rba(given: &mut Given, text: &[u8]) -> Result<(), Stop>
    ensures ok { OnOk result (with_rba given.old text.now ≡ Ok given.new) }
    ensures stop { IfErr result (StopsBy (with_rba given.old text.now)) }
{
    match small_number_in(text) {
        None => Err(Stop::Bad(DeckCause::BadNumber)),
        Some(number) => {
            given.at = Some(At::Rba(number));
            Ok(())
        }
    }
}

/// Takes a relative record number.
fn take_rrn(given: &mut Given, text: &[u8]) -> Result<(), Stop>
    ensures ok { OnOk result (with_rrn given.old text.now ≡ Ok given.new) }
    ensures stop { IfErr result (StopsBy (with_rrn given.old text.now)) }
{
    match small_number_in(text) {
        None => Err(Stop::Bad(DeckCause::BadNumber)),
        Some(number) => {
            given.at = Some(At::Rrn(number));
            Ok(())
        }
    }
}
