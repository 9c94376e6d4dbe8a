//! Three decks over two volumes at whatever schedule, and each deck's part of the merged history.

use crate::steps::{bound, run_three};
use crate::volume::PlainVolume;
use std::alloc::Global;
use std::sync::Wait;
use std::thread::Threads;
use vr_history::{Entry, What};
use vr_outside::OpenGate;
use vr_trace::{Histories, Merged, merge};
use vr_types::{Bound, OutOfMemory, Request};
use vr_worker::RunEnd;

/// How many requests each deck has.
const REQUESTS: u32 = 6;

/// A request as a deck is to ask it: its volume, its line, and whether it is an Update.
#[derive(Clone, Copy)]
struct Asking {
    volume: u32,
    line: u32,
    is_update: bool,
}

/// The request of a deck at a place, from 0.
fn request_at(deck: u32, place: u32) -> Asking {
    let both = deck.wrapping_add(place);
    Asking {
        volume: both % 2,
        line: deck.wrapping_mul(100).wrapping_add(place),
        is_update: both % 3 == 0,
    }
}

fn requests_of(alloc: Global, deck: u32) -> Result<Vec<Bound>, OutOfMemory> {
    let mut requests = Vec::new(alloc);
    for place in 0..REQUESTS {
        let asking = request_at(deck, place);
        requests.push(bound(alloc, asking.volume, asking.line, asking.is_update)?)?;
    }
    Ok(requests)
}

/// In how many of these runs a deck's part of the merged history isn't its requests in order,
/// each once, at stamps that rise.
pub fn count_differ<R: Threads + Wait + Sync>(
    rt: &R,
    alloc: Global,
    runs: u32,
) -> Result<u32, OutOfMemory> {
    let mut differ = 0u32;
    for _ in 0..runs {
        if !is_as_asked(rt, alloc)? {
            differ = differ.saturating_add(1);
        }
    }
    Ok(differ)
}

fn is_as_asked<R: Threads + Wait + Sync>(rt: &R, alloc: Global) -> Result<bool, OutOfMemory> {
    let first = requests_of(alloc, 1)?;
    let second = requests_of(alloc, 2)?;
    let third = requests_of(alloc, 3)?;
    let RunEnd { volumes, result } = run_three(rt, alloc, first, second, third, &OpenGate)?;
    if result.is_err() {
        return Ok(false);
    }
    let histories = histories_of(alloc, volumes)?;
    let merged = merge(alloc, &histories)?;
    Ok(is_whole(&merged, 1) && is_whole(&merged, 2) && is_whole(&merged, 3))
}

fn histories_of(alloc: Global, volumes: Vec<PlainVolume>) -> Result<Histories, OutOfMemory> {
    let mut histories = Histories::new(alloc);
    for volume in volumes {
        histories.push(volume.history)?;
    }
    Ok(histories)
}

/// Whether a deck's part of the merged history is all of its requests.
fn is_whole(merged: &Merged<'_>, deck: u32) -> bool {
    let mut part = Part {
        deck,
        last: 0,
        answered: 0,
        is_right: true,
    };
    for at in 0..merged.len() {
        if let Some((volume, entry)) = merged.get(at) {
            part.see(volume, entry);
        }
    }
    part.is_right && part.answered == REQUESTS
}

/// A deck's part of the merged history, as far as it was read.
#[derive(Drop)]
struct Part {
    deck: u32,
    last: u64,
    answered: u32,
    is_right: bool,
}

impl Part {
    /// Reads the next entry of any deck.
    fn see(&mut self, volume: usize, entry: &Entry) {
        if entry.unit.deck != self.deck {
            return;
        }
        let wanted = request_at(self.deck, self.answered);
        let is_there = wanted.volume as usize == volume && wanted.line == entry.line;
        if !is_there || entry.stamp <= self.last {
            self.is_right = false;
        }
        self.last = entry.stamp;
        self.match_kind(wanted.is_update, &entry.what);
    }

    /// Compares what an entry did with the kind of the request that is next.
    fn match_kind(&mut self, is_update: bool, what: &What) {
        match what {
            What::Asked { request, .. } => {
                if matches!(request.get(), Request::Update { .. }) != is_update {
                    self.is_right = false;
                }
                self.answered = self.answered.saturating_add(1);
            }
            What::Split { .. } if is_update => {}
            _ => self.is_right = false,
        }
    }
}
