//! Two decks at one ledger. A ledger that is never made meets every contract, so this shows that one
//! is made.
ghost use Rattle.std.specs.Prelude.{◌≡◌};

use std::alloc::Global;
use vr_history::{Entry, History, What};
use vr_ledger::Ledger;
use vr_types::{OutOfMemory, PartNo, Unit};

/// An entry of the deck's first unit of recovery.
fn entry(stamp: u64, deck: u32) -> Entry
    ensures stamp { result.stamp ≡ stamp }
    ensures deck { result.unit.deck ≡ deck }
{
    Entry {
        stamp,
        unit: Unit { deck, number: 1 },
        line: 0,
        what: What::Split { part: PartNo(1) },
    }
}

/// The decks of two turns, each of which enters one entry.
pub fn two_decks_take_turns(alloc: Global) -> Result<(u32, u32), OutOfMemory> {
    let mut history = History::new(alloc);
    history.reserve(2)?;
    let mut ledger = Ledger::new(alloc, &history)?;
    let mut one = ledger.enter(1);
    let mut other = ledger.enter(2);
    history.push(entry(1, 2));
    ledger.record(&mut other, &history);
    history.push(entry(2, 1));
    ledger.record(&mut one, &history);
    let decks = (one.deck(), other.deck());
    ledger.leave(one);
    ledger.leave(other);
    Ok(decks)
}
