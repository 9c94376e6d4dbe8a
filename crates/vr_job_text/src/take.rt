//! What each line of a job text does.
ghost use Rattle.std.specs.Prelude.{◌≡◌, ◌^◌, ◌≤◌, length, OnOk};
ghost use Rattle.vr_job_text.specs.Card.{card_of};
ghost use Rattle.vr_job_text.specs.Layout.{with_card, is_long, text_kept, with_body, with_stray};
ghost use Rattle.vr_job_text.specs.Layout.{with_text, with_line, with_next};

use crate::card::{Card, card_of, is_card, name_on};
use crate::fault::{CardCause, card_fault};
use crate::line::{column_of, first_bad, unindented, without_end};
use crate::reading::{PartKind, Reading};
use crate::step::{begin_step, close, end_step, refuse, take_data};
use std::alloc::Global;
use vr_types::OutOfMemory;

/// Takes a line, where none before is wrong.
pub(crate) fn take_next<'a>(
    alloc: Global,
    reading: &mut Reading<'a>,
    number: u32,
    line: &'a [u8],
) -> Result<(), OutOfMemory>
    requires { length line.now ≤ 2 ^ 26 }
    ensures { OnOk result (reading.new
        ≡ with_next reading.old.fault reading.old number line.now) }
{
    match reading.fault {
        Some(_) => Ok(()),
        None => take_line(alloc, reading, number, line),
    }
}

/// Takes a line.
fn take_line<'a>(
    alloc: Global,
    reading: &mut Reading<'a>,
    number: u32,
    line: &'a [u8],
) -> Result<(), OutOfMemory>
    requires { length line.now ≤ 2 ^ 26 }
    ensures { OnOk result (reading.new ≡ with_line reading.old number line.now) }
{
    match first_bad(line) {
        None => take_text(alloc, reading, number, line, without_end(line)),
        Some(at) => {
            refuse(reading, number, CardCause::Character, (at + 1) as u32);
            Ok(())
        }
    }
}

/// Takes a line of right characters, whole and without the blanks at its end.
fn take_text<'a>(
    alloc: Global,
    reading: &mut Reading<'a>,
    number: u32,
    whole: &'a [u8],
    line: &'a [u8],
) -> Result<(), OutOfMemory>
    requires { length line.now ≤ 2 ^ 26 }
    ensures { OnOk result (reading.new ≡ with_text reading.old number whole.now line.now) }
{
    if is_card(line) {
        close(reading)?;
        take_card(alloc, reading, number, line)
    } else if line == b"/*".as_slice() {
        close(reading)
    } else {
        take_body(reading, number, whole, line)
    }
}

/// Takes a card, where nothing goes on.
fn take_card(
    alloc: Global,
    reading: &mut Reading,
    number: u32,
    line: &[u8],
) -> Result<(), OutOfMemory>
    requires long { 2 ≤ length line.now }
    requires short { length line.now ≤ 2 ^ 26 }
    ensures { OnOk result (reading.new ≡ with_card reading.old number line.now (card_of line.now)) }
{
    match card_of(line) {
        Err(fault) => {
            reading.fault = Some(card_fault(number, fault));
            Ok(())
        }
        Ok(Card::Nothing) => Ok(()),
        Ok(Card::Step(program)) => {
            end_step(alloc, reading)?;
            begin_step(alloc, reading, number, name_on(line), program)
        }
        Ok(Card::Data) => take_data(alloc, reading, number, name_on(line)),
    }
}

/// The most characters of a data card.
const DATA_LIMIT: usize = 80;

/// Whether a line is a data card that is too long.
fn is_long(kind: &PartKind, whole: &[u8]) -> bool
    ensures { result ≡ is_long kind.now whole.now }
{
    match kind {
        PartKind::Data(_) => whole.len() > DATA_LIMIT,
        PartKind::Deck(_) => false,
        PartKind::Commands => false,
    }
}

/// What is kept of a line: of a data card all of it.
fn text_kept<'a>(kind: &PartKind, whole: &'a [u8], line: &'a [u8]) -> &'a [u8]
    ensures { result.now ≡ text_kept kind.now whole.now line.now }
{
    match kind {
        PartKind::Data(_) => whole,
        PartKind::Deck(_) => line,
        PartKind::Commands => line,
    }
}

/// Takes text.
fn take_body<'a>(
    reading: &mut Reading<'a>,
    number: u32,
    whole: &'a [u8],
    line: &'a [u8],
) -> Result<(), OutOfMemory>
    requires { length line.now ≤ 2 ^ 26 }
    ensures { OnOk result (reading.new
        ≡ with_body reading.old number whole.now line.now reading.old.going) }
{
    match &mut reading.going {
        Some(part) => {
            if !is_long(&part.kind, whole) {
                return part.lines.push(number, text_kept(&part.kind, whole, line));
            }
            refuse(reading, number, CardCause::LongData, 81);
        }
        None => take_stray(reading, number, line),
    }
    Ok(())
}

/// Takes text where nothing goes on.
fn take_stray(reading: &mut Reading, number: u32, line: &[u8])
    requires { length line.now ≤ 2 ^ 26 }
    ensures { reading.new ≡ with_stray reading.old number line.now }
{
    if !line.is_empty() {
        let column = column_of(line, unindented(line));
        refuse(reading, number, CardCause::StrayText, column);
    }
}
