//! The reading of the decks of a step.
ghost use Rattle.std.specs.Prelude.{◌≡◌, Ok, OnOk, IfOk, IfErr};
ghost use Rattle.vr_job_text.specs.Decks.{deck_in, with_read, with_part, with_decks, decks_in};
ghost use Rattle.vr_job_text.specs.Fault.{FaultBy};

use crate::fault::{JobFault, deck_fault};
use crate::reading::{Part, PartKind};
use crate::text::{Deck, Decks};
use std::alloc::Global;
use vr_deck_text::{DeckFault, DeckText, parse_deck};
use vr_text::Lines;

/// The decks of the parts of a step, by number.
pub(crate) fn decks_in(alloc: Global, parts: &[Part]) -> Result<Decks, JobFault>
    ensures ok { IfOk result (λ decks. decks_in parts.now ≡ Ok decks) }
    ensures fault { IfErr result (FaultBy (decks_in parts.now)) }
{
    let mut decks = Decks::new(alloc);
    match take_decks(alloc, &mut decks, parts) {
        Ok(()) => Ok(decks),
        Err(fault) => Err(fault),
    }
}

/// Takes each part into the decks of a step.
fn take_decks(alloc: Global, decks: &mut Decks, parts: &[Part]) -> Result<(), JobFault>
    ensures ok { OnOk result (with_decks (Ok decks.old) parts.now ≡ Ok decks.new) }
    ensures fault { IfErr result (FaultBy (with_decks (Ok decks.old) parts.now)) }
{
    for part in parts {
        match take_part(alloc, decks, part) {
            Ok(()) => {}
            Err(fault) => return Err(fault),
        }
    }
    Ok(())
}

/// Takes a part into the decks of a step.
fn take_part(alloc: Global, decks: &mut Decks, part: &Part) -> Result<(), JobFault>
    ensures ok { OnOk result
        (with_part decks.old part.now.lines part.now.kind ≡ Ok decks.new) }
    ensures fault { IfErr result
        (FaultBy (with_part decks.old part.now.lines part.now.kind)) }
{
    match part.kind {
        PartKind::Deck(number) => take_deck(alloc, decks, number, &part.lines),
        PartKind::Commands => Ok(()),
        PartKind::Data(_) => Ok(()),
    }
}

/// Takes a deck into those of a step.
fn take_deck(alloc: Global, decks: &mut Decks, number: u32, lines: &Lines) -> Result<(), JobFault>
    ensures ok { OnOk result (with_read decks.old number (deck_in lines.now) ≡ Ok decks.new) }
    ensures fault { IfErr result (FaultBy (with_read decks.old number (deck_in lines.now))) }
{
    match deck_in(alloc, lines) {
        Err(fault) => Err(fault),
        Ok(text) => {
            decks.add(Deck { number, text })?;
            Ok(())
        }
    }
}

/// The deck of some lines.
fn deck_in(alloc: Global, lines: &Lines) -> Result<DeckText, JobFault>
    ensures ok { IfOk result (λ deck. deck_in lines.now ≡ Ok deck) }
    ensures fault { IfErr result (FaultBy (deck_in lines.now)) }
{
    match parse_deck(alloc, lines) {
        Ok(deck) => Ok(deck),
        Err(DeckFault::Memory) => Err(JobFault::Memory),
        Err(DeckFault::Text(fault)) => { Err(JobFault::Text(deck_fault(fault.line, fault.cause))) }
    }
}
