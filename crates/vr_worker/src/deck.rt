//! A deck, and how its thread runs it.
ghost use Rattle.std.specs.Prelude.{◌≡◌, ◌==◌, ◌∷◌, [], Contains, OnOk, false};
ghost use Rattle.vr_worker.specs.Deck.{AreCalm, AreTurns, HasRun, IsRunSeat};

use crate::asking::run_request;
use crate::latched::{Latched, Names};
use crate::served::Served;
use std::sync::{Mutex, Wait};
use vr_ledger::Turn;
use vr_outside::Gate;
use vr_trace::RunNo;
use vr_types::Bound;

/// A deck of a step: its number, and its requests in order.
#[derive(Drop)]
pub struct DeckRun {
    pub number: u32,
    pub requests: Vec<Bound>,
}

/// What the thread of a deck has: its requests, a turn at the ledger of each volume, its last
/// stamp, and how it ended.
#[derive(Drop)]
pub(crate) struct Seat {
    pub(crate) deck: u32,
    pub(crate) requests: Vec<Bound>,
    pub(crate) turns: Vec<Turn>,
    pub(crate) last: u64,
    pub(crate) end: Result<(), RunNo>,
}

/// Asks one request of a deck until it is answered. Requests are bound to volumes that are there,
/// so there is a latch and a turn at the place of each request's volume; no type says so.
fn ask_one<R: Wait, V: Served + Send, N: Names<V>, G: Gate>(
    rt: &R,
    latches: &[Mutex<Latched<V, N>>],
    deck: u32,
    turns: &mut [Turn],
    last: &mut u64,
    bound: &Bound,
    gate: &G,
) -> Result<(), RunNo>
    requires turns { AreTurns N.ledgers deck turns.old }
    requires calm { AreCalm turns.old }
    requires own { (deck == 0) ≡ false }
    requires named { Contains N.decks deck }
    ensures ran { HasRun deck (bound.now ∷ []) result last.old last.new turns.old turns.new }
    ensures calm { OnOk result (AreCalm turns.new) }
{
    let place = bound.volume as usize;
    let Some(latch) = latches.get(place) else {
        return Err(RunNo::Memory);
    };
    if place >= turns.len() {
        return Err(RunNo::Memory);
    }
    run_request(
        rt,
        latch,
        bound.volume,
        &mut turns[place],
        last,
        bound.line,
        &bound.request,
        gate,
    )
}

/// Asks the requests of a deck, one after another.
fn ask_all<R: Wait, V: Served + Send, N: Names<V>, G: Gate>(
    rt: &R,
    latches: &[Mutex<Latched<V, N>>],
    deck: u32,
    turns: &mut [Turn],
    last: &mut u64,
    requests: &[Bound],
    gate: &G,
) -> Result<(), RunNo>
    requires turns { AreTurns N.ledgers deck turns.old }
    requires calm { AreCalm turns.old }
    requires own { (deck == 0) ≡ false }
    requires named { Contains N.decks deck }
    ensures { HasRun deck requests.now result last.old last.new turns.old turns.new }
{
    for bound in requests {
        ask_one(rt, latches, deck, turns, last, bound, gate)?;
    }
    Ok(())
}

/// Runs a deck on the volumes behind these latches, from volume 0 on: asks its requests in order,
/// to the end or until memory or stamps run out.
pub(crate) fn run_deck<R: Wait, V: Served + Send, N: Names<V>, G: Gate>(
    rt: &R,
    latches: &[Mutex<Latched<V, N>>],
    seat: &mut Seat,
    gate: &G,
)
    requires turns { AreTurns N.ledgers seat.old.deck seat.old.turns.items }
    requires calm { AreCalm seat.old.turns.items }
    requires own { (seat.old.deck == 0) ≡ false }
    requires named { Contains N.decks seat.old.deck }
    ensures { IsRunSeat seat.old seat.new }
{
    let Seat {
        deck,
        requests,
        turns,
        last,
        end,
    } = seat;
    *end = ask_all(
        rt,
        latches,
        *deck,
        turns.as_mut_slice(),
        last,
        requests.as_slice(),
        gate,
    );
}
