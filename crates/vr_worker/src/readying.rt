//! What a step of decks needs before its first thread starts.
ghost use Rattle.std.specs.Prelude.{◌≡◌, ◌∷◌, [], All, IfOk, OnOk, map};
ghost use Rattle.vr_history.specs.Merged.{IsStamped, last_stamp};
ghost use Rattle.vr_ledger.specs.Decks.{times};
ghost use Rattle.vr_ledger.specs.Ledger.{LedgerNow};
ghost use Rattle.vr_worker.specs.Decks.{IsOnce};
ghost use Rattle.vr_trace.specs.Growing.{AreUpTo, greatest_last};
ghost use Rattle.vr_worker.specs.Ready.{IsBegun, IsUnused, decks_of, history_of, turn_at, with_out};

use crate::deck::{DeckRun, Seat};
use crate::served::Served;
use std::alloc::Global;
use vr_history::History;
use vr_ledger::{Ledger, Turn};
use vr_trace::RunNo;
use vr_types::OutOfMemory;

/// The ledgers of the volumes, and the decks as their threads begin.
#[derive(Drop)]
pub(crate) struct Ready {
    pub(crate) ledgers: Vec<Ledger>,
    pub(crate) seats: Vec<Seat>,
}

/// The stamp of the last entry of a history, whose stamps rise: 0 where there is none.
fn last_of(history: &History) -> u64
    ensures last { result ≡ last_stamp 0 history.now.entries }
    ensures stamped { IsStamped 0 history.now.entries }
{
    match history.entries().last() {
        Some(entry) => entry.stamp,
        None => 0,
    }
}

/// The greatest of the last stamps of the volumes, 0 where nothing was entered.
pub(crate) fn greatest_of<V: Served>(volumes: &[V]) -> u64
    ensures last { result ≡ greatest_last V.entries volumes.now }
    ensures stamped { All (λ (volume : V). IsStamped 0 (V.entries volume)) volumes.now }
    ensures had { All (λ (volume : V). AreUpTo (greatest_last V.entries volumes.now)
        (V.entries volume)) volumes.now }
{
    let mut last = 0;
    for volume in volumes {
        last = last_of(volume.history()).max(last);
    }
    last
}

/// A ledger of each volume's history.
fn ledgers_of<V: Served>(alloc: Global, volumes: &[V]) -> Result<Vec<Ledger>, OutOfMemory>
    ensures histories { IfOk result (λ ledgers. map history_of ledgers.items
        ≡ map V.entries volumes.now) }
    ensures unused { IfOk result (λ ledgers. All IsUnused ledgers.items) }
{
    let mut ledgers = Vec::new(alloc);
    for volume in volumes {
        ledgers.push(Ledger::new(alloc, volume.history())?)?;
    }
    Ok(ledgers)
}

/// A turn of a deck at each ledger.
fn enter_all(alloc: Global, deck: u32, ledgers: &mut [Ledger]) -> Result<Vec<Turn>, OutOfMemory>
    requires free { All (λ (ledger : LedgerNow). times deck ledger.out ≡ 0) ledgers.old }
    ensures turns { IfOk result (λ turns. turns.items ≡ map (turn_at deck) ledgers.old) }
    ensures entered { OnOk result (ledgers.new ≡ map (with_out (deck ∷ [])) ledgers.old) }
{
    let mut turns = Vec::new(alloc);
    for place in 0..ledgers.len() {
        turns.push(ledgers[place].enter(deck))?;
    }
    Ok(turns)
}

/// The decks as their threads begin, each with a turn at each ledger. Their entries are to come
/// after the stamp `start`.
fn seats_of(
    alloc: Global,
    decks: Vec<DeckRun>,
    start: u64,
    ledgers: &mut [Ledger],
) -> Result<Vec<Seat>, OutOfMemory>
    requires unused { All IsUnused ledgers.old }
    requires once { IsOnce decks.items }
    ensures decks { IfOk result (λ seats. decks_of seats.items ≡ decks.items) }
    ensures begun { IfOk result (λ seats. All (IsBegun ledgers.new start) seats.items) }
    ensures histories { OnOk result (map history_of ledgers.new ≡ map history_of ledgers.old) }
{
    let mut seats = Vec::new(alloc);
    for deck in decks {
        let turns = enter_all(alloc, deck.number, ledgers)?;
        seats.push(Seat {
            deck: deck.number,
            requests: deck.requests,
            turns,
            last: start,
            end: Err(RunNo::Memory),
        })?;
    }
    Ok(seats)
}

/// Makes ready the decks of a step over these volumes. Their entries are to come after all that any
/// of the volumes has.
pub(crate) fn make_ready<V: Served>(
    alloc: Global,
    decks: Vec<DeckRun>,
    volumes: &[V],
) -> Result<Ready, OutOfMemory>
    requires once { IsOnce decks.items }
    ensures decks { IfOk result (λ ready. decks_of ready.seats.items ≡ decks.items) }
    ensures begun { IfOk result (λ ready. All (IsBegun ready.ledgers.items
        (greatest_last V.entries volumes.now)) ready.seats.items) }
    ensures histories { IfOk result (λ ready. map history_of ready.ledgers.items
        ≡ map V.entries volumes.now) }
    ensures had { All (λ (volume : V). AreUpTo (greatest_last V.entries volumes.now)
        (V.entries volume)) volumes.now }
{
    let start = greatest_of(volumes);
    let mut ledgers = ledgers_of(alloc, volumes)?;
    let seats = seats_of(alloc, decks, start, ledgers.as_mut_slice())?;
    Ok(Ready { ledgers, seats })
}
