//! Where steps begin and end, and what their cards announce.
ghost use Rattle.std.specs.Prelude.{◌≡◌, None, [], OnOk};
ghost use Rattle.std.specs.List.{list_any};
ghost use Rattle.vr_job_text.specs.Card.{deck_number};
ghost use Rattle.vr_job_text.specs.Fault.{wrong, card_fault};
ghost use Rattle.vr_job_text.specs.Layout.{closed, opened, refused, ended, begun_at, may_number};
ghost use Rattle.vr_job_text.specs.Layout.{announced, with_number, with_deck_card, is_named};
ghost use Rattle.vr_job_text.specs.Layout.{with_data_name, with_dd, with_data, step_added, going_after};

use crate::card::{Program, deck_number};
use crate::fault::{CardCause, card_fault, wrong};
use crate::reading::{Begun, Numbers, Part, PartKind, Parts, Reading, StepText};
use std::alloc::Global;
use std::mem::replace;
use vr_text::Lines;
use vr_types::{OutOfMemory, bytes};

/// Ends what goes on.
pub(crate) fn close(reading: &mut Reading) -> Result<(), OutOfMemory>
    ensures { OnOk result (reading.new ≡ closed reading.old) }
{
    match reading.going.take() {
        None => Ok(()),
        Some(part) => Ok(reading.parts.push(part)?),
    }
}

/// Says what is wrong on a line.
pub(crate) fn refuse(reading: &mut Reading, line: u32, cause: CardCause, column: u32)
    ensures { reading.new ≡ refused reading.old line cause column }
{
    reading.fault = Some(card_fault(line, wrong(cause, column)));
}

/// Ends the step that was begun.
pub(crate) fn end_step(alloc: Global, reading: &mut Reading) -> Result<(), OutOfMemory>
    ensures { OnOk result (reading.new ≡ ended reading.old) }
{
    match reading.begun.take() {
        None => Ok(()),
        Some(begun) => add_step(alloc, reading, begun),
    }
}

/// Adds a step that has ended.
fn add_step(alloc: Global, reading: &mut Reading, begun: Begun) -> Result<(), OutOfMemory>
    requires { reading.old.begun ≡ None }
    ensures { OnOk result (reading.new ≡ step_added reading.old begun) }
{
    let parts = replace(&mut reading.parts, Parts::new(alloc));
    let Begun {
        name,
        line,
        program,
    } = begun;
    reading.steps.push(StepText {
        name,
        line,
        program,
        parts,
    })?;
    Ok(())
}

/// Begins a step.
pub(crate) fn begin_step(
    alloc: Global,
    reading: &mut Reading,
    line: u32,
    name: &[u8],
    program: Program,
) -> Result<(), OutOfMemory>
    ensures { OnOk result (reading.new ≡ begun_at reading.old line name.now program) }
{
    let name = bytes(alloc, name)?;
    reading.begun = Some(Begun {
        name,
        line,
        program,
    });
    reading.going = going_after(alloc, program);
    Ok(())
}

/// What goes on after the card of a step: commands may follow that of a step of IDCAMS directly.
fn going_after<'a>(alloc: Global, program: Program) -> Option<Part<'a>>
    ensures { result ≡ going_after program }
{
    match program {
        Program::Decks => None,
        Program::Utilities => Some(Part {
            kind: PartKind::Commands,
            lines: Lines::new(alloc),
        }),
    }
}

/// Opens what stands after a card.
fn open(alloc: Global, reading: &mut Reading, kind: PartKind)
    ensures { reading.new ≡ opened reading.old (record { kind = kind; lines = [] }) }
{
    reading.going = Some(Part {
        kind,
        lines: Lines::new(alloc),
    });
}

/// Takes a card that data follows.
pub(crate) fn take_data(
    alloc: Global,
    reading: &mut Reading,
    line: u32,
    name: &[u8],
) -> Result<(), OutOfMemory>
    ensures { OnOk result (reading.new
        ≡ with_data reading.old line reading.old.begun name.now) }
{
    let program = match &reading.begun {
        None => {
            refuse(reading, line, CardCause::Misspelled, 3);
            return Ok(());
        }
        Some(begun) => begun.program,
    };
    match program {
        Program::Decks => take_deck_card(alloc, reading, line, name),
        Program::Utilities => take_dd(alloc, reading, line, name),
    }
}

/// Takes a card that announces a deck.
fn take_deck_card(
    alloc: Global,
    reading: &mut Reading,
    line: u32,
    name: &[u8],
) -> Result<(), OutOfMemory>
    ensures { OnOk result (reading.new ≡ with_deck_card reading.old line (deck_number name.now)) }
{
    match deck_number(name) {
        None => {
            refuse(reading, line, CardCause::Misspelled, 3);
            Ok(())
        }
        Some(deck) => take_number(alloc, reading, line, deck),
    }
}

/// Whether a deck may have a number.
fn may_number(used: &Numbers, deck: u32) -> bool
    ensures { result ≡ may_number used.now deck }
{
    deck >= 1 && deck <= 99 && !used.has(deck)
}

/// How many decks a job may have.
const DECK_LIMIT: usize = 64;

/// Takes the number of a deck that is announced.
fn take_number(
    alloc: Global,
    reading: &mut Reading,
    line: u32,
    deck: u32,
) -> Result<(), OutOfMemory>
    ensures { OnOk result (reading.new ≡ with_number reading.old line deck) }
{
    if reading.used.len() >= DECK_LIMIT {
        refuse(reading, line, CardCause::TooManyDecks, 3);
        Ok(())
    } else if may_number(&reading.used, deck) {
        announce(alloc, reading, deck)
    } else {
        refuse(reading, line, CardCause::DeckNumber, 7);
        Ok(())
    }
}

/// Announces a deck.
fn announce(alloc: Global, reading: &mut Reading, deck: u32) -> Result<(), OutOfMemory>
    ensures { OnOk result (reading.new ≡ announced reading.old deck) }
{
    reading.used.push(deck)?;
    open(alloc, reading, PartKind::Deck(deck));
    Ok(())
}

/// Takes a card of a step of IDCAMS that commands or data follow.
fn take_dd(alloc: Global, reading: &mut Reading, line: u32, name: &[u8]) -> Result<(), OutOfMemory>
    ensures { OnOk result (reading.new ≡ with_dd reading.old line name.now) }
{
    if name == b"SYSIN".as_slice() {
        open(alloc, reading, PartKind::Commands);
        Ok(())
    } else {
        take_data_name(alloc, reading, line, name)
    }
}

/// Whether a part is data of a name.
fn is_named(name: &[u8], kind: &PartKind) -> bool
    ensures { result ≡ is_named name.now kind.now }
{
    match kind {
        PartKind::Data(other) => other.as_slice() == name,
        PartKind::Deck(_) => false,
        PartKind::Commands => false,
    }
}

/// Whether one of the parts of a step is data of a name.
fn has_data(parts: &[Part], name: &[u8]) -> bool
    ensures { result ≡ list_any (λ part. is_named name.now part.kind) parts.now }
{
    parts.iter().any(|part| is_named(name, &part.kind))
}

/// Takes the name of data that is announced.
fn take_data_name(
    alloc: Global,
    reading: &mut Reading,
    line: u32,
    name: &[u8],
) -> Result<(), OutOfMemory>
    ensures { OnOk result (reading.new ≡ with_data_name reading.old line name.now) }
{
    if has_data(reading.parts.as_slice(), name) {
        refuse(reading, line, CardCause::DataTwice, 3);
        return Ok(());
    }
    let name = bytes(alloc, name)?;
    open(alloc, reading, PartKind::Data(name));
    Ok(())
}
