//! A volume that has a number and a history, and no data. An Update takes two events, of which the
//! first enters a split, and any other request one.
ghost use Rattle.std.specs.Prelude.{◌≡◌, [], IfOk};
ghost use Rattle.vr_worker_cases.specs.Event.{Always, event_of};

use std::alloc::Global;
use vr_history::{Entry, History, What};
use vr_trace::RunNo;
use vr_types::{OutOfMemory, PartNo, Reply, Request, SharedRequest, Unit};
use vr_worker::Served;

/// The least stamp with which no event begins.
const STAMP_LIMIT: u64 = 1 << 62;

/// A volume of which nothing is kept but its history.
#[derive(Drop)]
pub struct PlainVolume {
    pub number: u32,
    pub history: History,
}

impl PlainVolume {
    /// A volume with no entry, which takes no memory.
    pub fn new(alloc: Global, number: u32) -> PlainVolume
        ensures number { result.number ≡ number }
        ensures entries { result.history.entries ≡ [] }
    {
        PlainVolume {
            number,
            history: History::new(alloc),
        }
    }
}

impl Served for PlainVolume {
    ghost number = { λ volume. volume.number };

    ghost entries = { λ volume. volume.history.entries };

    ghost follows = { λ before after. Always before after };

    ghost nears = { λ before after deck. Always before after };

    ghost stays = { λ volume. tt };

    ghost goes_on = { λ one two three first second. tt };

    fn number(&self) -> u32 {
        self.number
    }

    fn history(&self) -> &History {
        &self.history
    }

    fn answer(
        &mut self,
        deck: u32,
        line: u32,
        request: &SharedRequest,
        after: u64,
    ) -> Result<bool, RunNo> {
        let last = self.history.last().max(after);
        if last >= STAMP_LIMIT {
            return Err(RunNo::Stamps);
        }
        let done = is_last_event(self.history.entries(), deck, request.get());
        let entry = event(deck, line, last + 1, done, request)?;
        self.history.reserve(1)?;
        self.history.push(entry);
        Ok(done)
    }
}

/// Whether the next event of a deck's request answers it: an Update is answered once the deck's last
/// entry is a split.
fn is_last_event(entries: &[Entry], deck: u32, request: &Request) -> bool {
    if !matches!(request, Request::Update { .. }) {
        return true;
    }
    let mut split = false;
    for entry in entries {
        if entry.unit.deck == deck {
            split = matches!(entry.what, What::Split { .. });
        }
    }
    split
}

/// The entry that an event makes: the request, where it is answered, or else a split.
fn event(
    deck: u32,
    line: u32,
    stamp: u64,
    done: bool,
    request: &SharedRequest,
) -> Result<Entry, OutOfMemory>
    ensures { IfOk result (λ entry. entry ≡ event_of deck line stamp done request.now) }
{
    let what = if done {
        What::Asked {
            request: request.share()?,
            reply: Reply::Done {
                feedback: 0,
                place: None,
                bytes: None,
            },
        }
    } else {
        What::Split { part: PartNo(1) }
    };
    Ok(Entry {
        stamp,
        unit: Unit { deck, number: 1 },
        line,
        what,
    })
}
