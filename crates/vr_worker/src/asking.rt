//! One request of a deck, asked at the latch of its volume event by event until it is answered.
ghost use Rattle.std.specs.Prelude.{◌≡◌, ◌==◌, Contains, false};
ghost use Rattle.vr_worker.specs.Asked.{MayAsk, is_done, is_ok};
ghost use Rattle.vr_worker.specs.Latched.{HasTaken};

use crate::latched::{Latched, Names};
use crate::served::Served;
use std::sync::{Mutex, Wait};
use vr_ledger::Turn;
use vr_outside::{Gate, Spot};
use vr_trace::RunNo;
use vr_types::SharedRequest;

/// One event of a request on the volume of this number, whose latch is held: whether the request
/// was answered. It can't wait: it has no `Wait`. The latches are in the order of their volumes, so
/// this is that volume's; no type says so. Were it another's, the deck would end as where memory
/// runs out.
fn event_held<V: Served + Send, N: Names<V>, G: Gate>(
    held: &mut Latched<V, N>,
    volume: u32,
    turn: &mut Turn,
    last: &mut u64,
    line: u32,
    request: &SharedRequest,
    gate: &G,
) -> Result<bool, RunNo>
    requires own_ledger { turn.old.ledger ≡ N.ledgers volume }
    requires deck { (turn.old.deck == 0) ≡ false }
    requires named { Contains N.decks turn.old.deck }
    requires may_ask { MayAsk request.now turn.old.entries }
    ensures { HasTaken volume line request.now (is_done result) last.old last.new turn.old
        turn.new }
{
    if held.number() != volume {
        return Err(RunNo::Memory);
    }
    gate.pass(Spot::Holding {
        deck: turn.deck(),
        volume,
    });
    held.answer(turn, last, line, request)
}

/// One event of a request on the volume of this number, under its latch: whether the request was
/// answered. Nothing is done under the latch but that.
fn event<R: Wait, V: Served + Send, N: Names<V>, G: Gate>(
    rt: &R,
    latch: &Mutex<Latched<V, N>>,
    volume: u32,
    turn: &mut Turn,
    last: &mut u64,
    line: u32,
    request: &SharedRequest,
    gate: &G,
) -> Result<bool, RunNo>
    requires own_ledger { turn.old.ledger ≡ N.ledgers volume }
    requires deck { (turn.old.deck == 0) ≡ false }
    requires named { Contains N.decks turn.old.deck }
    requires may_ask { MayAsk request.now turn.old.entries }
    ensures { HasTaken volume line request.now (is_done result) last.old last.new turn.old
        turn.new }
{
    event_held(&mut latch.lock(rt), volume, turn, last, line, request, gate)
}

/// Asks a request of the turn's deck on the volume of this number until it is answered. Each event
/// is one hold of the volume's latch; between two of them the latch is free. Where it isn't
/// answered, no stamps are left, or no memory.
pub fn run_request<R: Wait, V: Served + Send, N: Names<V>, G: Gate>(
    rt: &R,
    latch: &Mutex<Latched<V, N>>,
    volume: u32,
    turn: &mut Turn,
    last: &mut u64,
    line: u32,
    request: &SharedRequest,
    gate: &G,
) -> Result<(), RunNo>
    requires own_ledger { turn.old.ledger ≡ N.ledgers volume }
    requires deck { (turn.old.deck == 0) ≡ false }
    requires named { Contains N.decks turn.old.deck }
    requires may_ask { MayAsk request.now turn.old.entries }
    ensures { HasTaken volume line request.now (is_ok result) last.old last.new turn.old turn.new }
{
    for _ in rt.forever() {
        if event(rt, latch, volume, turn, last, line, request, gate)? {
            return Ok(());
        }
        gate.pass(Spot::Between {
            deck: turn.deck(),
            line,
        });
    }
    unreachable!()
}
