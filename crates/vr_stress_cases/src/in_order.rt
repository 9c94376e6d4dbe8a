//! Whether each deck's part of the merged history is what it was to ask.

use crate::planned::{LOADER, Planned};
use std::alloc::Global;
use vr_case_volumes::{Stop, Verb};
use vr_history::{Entry, What};
use vr_trace::{Histories, Merged, merge};

/// Whether each deck's part of the merged history is its requests, in order, each once, at stamps
/// that rise.
pub fn are_in_order(alloc: Global, asked: &[Planned], histories: &Histories) -> Result<bool, Stop> {
    let merged = merge(alloc, histories)?;
    let mut whole = true;
    for deck in 1..LOADER + 1 {
        whole = whole && is_in_order(asked, &merged, deck);
    }
    Ok(whole)
}

/// Whether a deck's part of the merged history is its requests.
fn is_in_order(asked: &[Planned], merged: &Merged<'_>, deck: u32) -> bool {
    let mut part = Part {
        deck,
        last: 0,
        next: first_of(asked, deck),
        is_right: true,
    };
    for at in 0..merged.len() {
        if let Some((volume, entry)) = merged.get(at) {
            part.see(asked, volume, entry);
        }
    }
    part.is_right && part.wanted(asked).is_none()
}

/// The place of a deck's first request.
fn first_of(asked: &[Planned], deck: u32) -> usize {
    for (at, one) in asked.iter().enumerate() {
        if one.deck == deck {
            return at;
        }
    }
    asked.len()
}

/// A deck's part of the merged history, as far as it was read.
#[derive(Clone, Copy)]
struct Part {
    deck: u32,
    last: u64,
    next: usize,
    is_right: bool,
}

impl Part {
    /// The deck's request that is next, where one is left.
    fn wanted(&self, asked: &[Planned]) -> Option<Planned> {
        match asked.get(self.next) {
            Some(one) if one.deck == self.deck => Some(*one),
            _ => None,
        }
    }

    /// Reads the next entry of any deck.
    fn see(&mut self, asked: &[Planned], volume: usize, entry: &Entry) {
        if entry.unit.deck != self.deck {
            return;
        }
        let is_next = match self.wanted(asked) {
            Some(wanted) => wanted.volume as usize == volume && is_of(&wanted, entry),
            None => false,
        };
        if !is_next || entry.stamp <= self.last {
            self.is_right = false;
        }
        self.last = entry.stamp;
        if matches!(entry.what, What::Asked { .. }) {
            self.next = self.next.saturating_add(1);
        }
    }
}

/// Whether an entry is one of a request: its answer; what a BACKOUT puts back; or a stage of a
/// split, which another deck may have begun, before a change or before that.
fn is_of(wanted: &Planned, entry: &Entry) -> bool {
    match &entry.what {
        What::Asked { request, .. } => {
            entry.line == wanted.line && Verb::of(request.get()) == wanted.verb
        }
        What::Undone { .. } => wanted.verb == Verb::Backout,
        What::Claimed { .. } | What::Split { .. } => {
            matches!(wanted.verb, Verb::Put | Verb::Erase | Verb::Backout)
        }
        What::Faulted { .. } => false,
    }
}
