//! What the latch of a volume guards while the decks of a step run.
ghost use Rattle.std.specs.Prelude.{◌≡◌, ◌<◌, ◌==◌, ℕ, List, Option, Contains, IfOk, IfSome, Some};
ghost use Rattle.std.specs.Prelude.{None, [], false};
ghost use Rattle.atomic_table.specs.Seated.{TableId};
ghost use Rattle.vr_ledger.specs.Entries.{HasGrown};
ghost use Rattle.vr_trace.specs.Laws.{deck_entries};
ghost use Rattle.vr_worker.specs.Asked.{MayAsk, is_done};
ghost use Rattle.vr_worker.specs.Latched.{HasTaken, IsLatched, IsSince};

use crate::served::Served;
use std::marker::{Brand, Model, PhantomData};
use vr_ledger::{Ledger, Turn};
use vr_trace::RunNo;
use vr_types::SharedRequest;

/// What a step knows of its volumes: how many there are; by its number, of each, the volume as the
/// step began, and its ledger; and the decks of the step. One call fixes it.
pub trait Names<V> {
    ghost count: { ℕ };

    ghost start: { ℕ → Option V };

    ghost ledgers: { ℕ → TableId };

    ghost decks: { List ℕ };
}

impl<V> Names<V> for Brand {
    ghost count = { 0 };

    ghost start = { λ number. None };

    ghost ledgers = { λ number. record {
      words = 0;
      slots = 0;
      views_name = 0;
      atom = 0;
      block = 0;
      offset = 0;
      slot_names = [];
    } };

    ghost decks = { [] };
}

/// A volume with its ledger, of which a step knows by its number what it was.
#[derive(Drop)]
pub struct Latched<V: Served, N: Names<V>> {
    volume: V,
    ledger: Ledger,
    of: PhantomData<N>,
}

impl<V: Served, N: Names<V>> Model for Latched<V, N> {
    ghost use Rattle.vr_worker.specs.Latched.{IsLatched, LatchedNow};

    ghost Value = { LatchedNow V };

    ghost view = { λ latched. record { volume = latched.volume; ledger = latched.ledger } };

    ghost invariant = { λ latched. IsLatched V.number V.entries V.follows N.count N.start N.ledgers
        N.decks latched.volume latched.ledger };
}

impl<V: Served, N: Names<V>> Latched<V, N> {
    /// A volume as a step begins, with a ledger of its history.
    pub fn new(volume: V, ledger: Ledger) -> Latched<V, N>
        requires { IsLatched V.number V.entries V.follows N.count N.start N.ledgers N.decks volume
            ledger }
        ensures { result ≡ record { volume = volume; ledger = ledger } }
    {
        Latched {
            volume,
            ledger,
            of: PhantomData,
        }
    }

    /// The number of the volume, which is one of the step's.
    pub fn number(&self) -> u32
        ensures number { result ≡ V.number self.now.volume }
        ensures within { result < N.count }
    {
        self.volume.number()
    }

    /// Learns that the turn has all that the history has of its deck.
    pub fn tell(&mut self, turn: &mut Turn)
        requires own_ledger { turn.old.ledger ≡ N.ledgers (V.number self.old.volume) }
        ensures told { turn.old.entries ≡ deck_entries turn.old.deck (V.entries self.old.volume) }
        ensures grown { HasGrown turn.old.history (V.entries self.old.volume) }
        ensures turn { turn.new ≡ turn.old }
        ensures volume { self.new.volume ≡ self.old.volume }
    {
        self.ledger.tell(turn);
    }

    /// One event of a request of the turn's deck, whose last stamp is `last`: whether the request was
    /// answered. Where it wasn't, it waits for fewer steps than before.
    pub fn answer(
        &mut self,
        turn: &mut Turn,
        last: &mut u64,
        line: u32,
        request: &SharedRequest,
    ) -> Result<bool, RunNo>
        requires own_ledger { turn.old.ledger ≡ N.ledgers (V.number self.old.volume) }
        requires deck { (turn.old.deck == 0) ≡ false }
        requires named { Contains N.decks turn.old.deck }
        requires may_ask { MayAsk request.now turn.old.entries }
        ensures taken { HasTaken (V.number self.old.volume) line request.now (is_done result)
            last.old last.new turn.old turn.new }
        ensures nearer { IfOk result (λ done. done ≡ false
            → V.nears self.old.volume self.new.volume turn.old.deck) }
    {
        self.tell(turn);
        self.event(turn, last, line, request)
    }

    /// The same, where the turn has all that the history has of its deck.
    fn event(
        &mut self,
        turn: &mut Turn,
        last: &mut u64,
        line: u32,
        request: &SharedRequest,
    ) -> Result<bool, RunNo>
        requires own_ledger { turn.old.ledger ≡ N.ledgers (V.number self.old.volume) }
        requires deck { (turn.old.deck == 0) ≡ false }
        requires named { Contains N.decks turn.old.deck }
        requires may_ask { MayAsk request.now turn.old.entries }
        requires told { turn.old.entries
            ≡ deck_entries turn.old.deck (V.entries self.old.volume) }
        ensures taken { HasTaken (V.number self.old.volume) line request.now (is_done result)
            last.old last.new turn.old turn.new }
        ensures nearer { IfOk result (λ done. done ≡ false
            → V.nears self.old.volume self.new.volume turn.old.deck) }
    {
        let before = self.volume.history().last();
        let answer = self.volume.answer(turn.deck(), line, request, *last);
        let now = self.volume.history().last();
        if now > before {
            *last = now;
        }
        self.ledger.record(turn, self.volume.history());
        answer
    }

    /// No other latch guards a volume of this number: it may be called only where that contradicts
    /// what is known.
    pub fn refute_twin(&mut self, twin: Latched<V, N>)
        requires same { V.number twin.volume ≡ V.number self.old.volume }
        ensures { ⊥ }
    {
        self.ledger.refute_twin(twin.ledger);
    }

    /// The volume alone, as the step ends.
    pub fn into_volume(self) -> V
        ensures volume { result ≡ self.volume }
        ensures since { IfSome (N.start (V.number result))
            (λ (first : V). IsSince V.entries V.follows N.decks first result) }
    {
        let Latched { volume, .. } = self;
        volume
    }
}
