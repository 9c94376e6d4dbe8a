//! What `vr_bind` answers: the requests of a deck, by the catalogs of two volumes.

use crate::catalogs::two_catalogs;
use crate::lines::lines_of;
use crate::requests::say_request;
use std::alloc::Global;
use vr_bind::bind;
use vr_case_table::{Answer, Answers, Stop};
use vr_catalog::Catalog;
use vr_deck_text::{DeckFault, DeckText, parse_deck};
use vr_types::Bound;

/// Writes the requests of the lines of a deck, which `|` separates and which are numbered from 1.
pub fn bind_text(text: &str, out: &mut Answers) -> Answer {
    let alloc = out.alloc();
    let lines = lines_of(alloc, text)?;
    match parse_deck(alloc, &lines) {
        Ok(deck) => bind_deck(alloc, &deck, out),
        Err(DeckFault::Text(_)) => Err(Stop::Line),
        Err(DeckFault::Memory) => Err(Stop::Memory),
    }
}

/// Writes the requests of a deck.
fn bind_deck(alloc: Global, deck: &DeckText, out: &mut Answers) -> Answer {
    let catalogs = two_catalogs(alloc)?;
    let lent: Vec<&Catalog> = catalogs.iter().collect(alloc)?;
    bind_over(alloc, deck, lent.as_slice(), out)
}

/// Writes the requests of a deck over catalogs.
fn bind_over(alloc: Global, deck: &DeckText, lent: &[&Catalog], out: &mut Answers) -> Answer {
    if lent.len() > 16 {
        return Err(Stop::Line);
    }
    let requests = bind(alloc, deck, lent)?;
    for bound in requests.as_slice() {
        say_bound(bound, out);
    }
    Ok(())
}

/// Writes a request: its line, its volume and what is asked.
fn say_bound(bound: &Bound, out: &mut Answers) {
    out.gap();
    out.say_number("", u64::from(bound.line));
    out.say_number(":", u64::from(bound.volume));
    out.say(":");
    say_request(bound.request.get(), out);
}
