//! What a history commits, as a plain, slow program says it, and what a volume has that was opened
//! again. A record is known by the place that replies name: its key, its address or its slot.

use vr_history::{Entry, What};
use vr_types::{Find, Refusal, Reply, Request};

/// A history or a reply that says no record.
#[derive(Clone, Copy)]
pub struct Unsaid;

/// The record at a place, as it was committed last, and as a deck changed it that hasn't committed
/// yet. A change that another deck hasn't ended yet goes wrong.
#[derive(Clone, Copy)]
struct Record<'a> {
    committed: Option<&'a [u8]>,
    changed: Option<(u32, Option<&'a [u8]>)>,
    is_right: bool,
}

impl<'a> Record<'a> {
    fn change(&mut self, deck: u32, bytes: Option<&'a [u8]>) {
        if let Some((other, _)) = self.changed {
            if other != deck {
                self.is_right = false;
            }
        }
        self.changed = Some((deck, bytes));
    }

    /// Ends the unit of a deck, which commits or not.
    fn end(&mut self, deck: u32, commits: bool) {
        if let Some((other, bytes)) = self.changed {
            if other == deck {
                self.committed = if commits { bytes } else { self.committed };
                self.changed = None;
            }
        }
    }

    /// Takes a request of a deck that was done, here or at another place.
    fn take(&mut self, deck: u32, request: &'a Request, is_here: bool) {
        match request {
            Request::Commit => self.end(deck, true),
            Request::Backout => self.end(deck, false),
            _ => {
                if is_here {
                    self.take_here(deck, request);
                }
            }
        }
    }

    /// Takes a request of a deck that was done here.
    fn take_here(&mut self, deck: u32, request: &'a Request) {
        match request {
            Request::Add { bytes, .. } | Request::Update { bytes, .. } => {
                self.change(deck, Some(bytes.as_slice()));
            }
            Request::Erase { .. } => self.change(deck, None),
            _ => {}
        }
    }
}

/// Whether a reply is at a place.
fn is_at(reply: &Reply, place: &[u8]) -> bool {
    match reply {
        Reply::Done {
            place: Some(named),
            ..
        } => named.as_slice() == place,
        _ => false,
    }
}

/// The record at a place that is committed by a history, `None` where none is. `Err` where two
/// decks changed it at once, or a change is left that no deck ended.
pub fn committed<'a>(entries: &'a [Entry], place: &[u8]) -> Result<Option<&'a [u8]>, Unsaid> {
    let mut record = Record {
        committed: None,
        changed: None,
        is_right: true,
    };
    for entry in entries {
        if let What::Asked { request, reply } = &entry.what {
            if matches!(reply, Reply::Done { .. }) {
                record.take(entry.unit.deck, request.get(), is_at(reply, place));
            }
        }
    }
    if record.is_right && record.changed.is_none() {
        Ok(record.committed)
    } else {
        Err(Unsaid)
    }
}

/// The record that a GET of a place found, `None` where it found none. `Err` where no GET asked for
/// it, or one was refused otherwise.
pub fn found<'a>(entries: &'a [Entry], place: &[u8]) -> Result<Option<&'a [u8]>, Unsaid> {
    for entry in entries {
        if let What::Asked { request, reply } = &entry.what {
            if asks_for(request.get(), place) {
                return record_in(reply);
            }
        }
    }
    Err(Unsaid)
}

/// Whether a request is a GET of a place.
fn asks_for(request: &Request, place: &[u8]) -> bool {
    match request {
        Request::Get {
            find: Find::Equal(asked),
            ..
        } => asked.as_slice() == place,
        _ => false,
    }
}

fn record_in(reply: &Reply) -> Result<Option<&[u8]>, Unsaid> {
    match reply {
        Reply::Done {
            bytes: Some(bytes),
            ..
        } => Ok(Some(bytes.as_slice())),
        Reply::Refused(Refusal::NotFound | Refusal::NoAddress) => Ok(None),
        _ => Err(Unsaid),
    }
}
