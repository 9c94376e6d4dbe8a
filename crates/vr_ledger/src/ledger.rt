//! The ledger of a volume, which the volume's latch guards.
ghost use Rattle.std.specs.Prelude.{◌≡◌};

use crate::seat::LedgerSeat;
use crate::turn::Turn;
use atomic_table::Badge;
use std::alloc::Global;
use std::marker::Model;
use std::mem;
use vr_history::History;
use vr_types::OutOfMemory;

/// The ledger of a volume: the volume's whole history, and the decks whose turns are out. At run
/// time it is a count of the entries.
#[derive(Drop)]
pub struct Ledger {
    seat: LedgerSeat,
}

impl Model for Ledger {
    ghost use Rattle.std.specs.Prelude.{◌≡◌, None};
    ghost use Rattle.vr_ledger.specs.Ledger.{LedgerNow, ledger_now};
    ghost use Rattle.vr_ledger.specs.Seats.{whole_of};

    ghost Value = { LedgerNow };

    ghost view = { λ ledger. ledger_now ledger.seat };

    ghost invariant = { λ ledger. (whole_of ledger.seat).joined ≡ None };
}

impl Ledger {
    ghost use Rattle.std.specs.Prelude.{List, [], ◌∷◌, ◌++◌, IfOk, All};
    ghost use Rattle.vr_history.specs.declared.entry.Entry.{Entry};
    ghost use Rattle.vr_ledger.specs.Decks.{times, without};
    ghost use Rattle.vr_ledger.specs.Entries.{entries_of, HasGrown, IsOf};

    /// The ledger of a history, with no turn out. Fails only if memory runs out.
    pub fn new(alloc: Global, history: &History) -> Result<Ledger, OutOfMemory>
        ensures history { IfOk result (λ ledger. ledger.history ≡ history.now.entries) }
        ensures none { IfOk result (λ ledger. ledger.out ≡ []) }
    {
        Ok(Ledger {
            seat: LedgerSeat::new(alloc, history)?,
        })
    }

    /// A turn for a deck that has none. It takes no memory.
    pub fn enter(&mut self, deck: u32) -> Turn
        requires free { times deck self.old.out ≡ 0 }
        ensures turn { result
            ≡ record {
              deck = deck;
              ledger = self.old.table;
              entries = entries_of deck self.old.history;
              history = self.old.history;
            } }
        ensures ledger { self.new ≡ record self.old { out = deck ∷ self.old.out } }
    {
        self.seat.admit(deck);
        let badge = self.seat.hand_out();
        Turn { deck, badge }
    }

    /// Enters what an event of the turn's deck added to the history: the ledger's history goes on
    /// as this one.
    pub fn record(&mut self, turn: &mut Turn, history: &History)
        requires own_ledger { turn.old.ledger ≡ self.old.table }
        requires more { (made : List Entry)
            × (history.now.entries ≡ self.old.history ++ made)
            × All (IsOf turn.old.deck) made }
        ensures told { turn.old.entries ≡ entries_of turn.old.deck self.old.history }
        ensures grown { HasGrown turn.old.history self.old.history }
        ensures turn { turn.new
            ≡ record turn.old {
              entries = entries_of turn.old.deck history.now.entries;
              history = history.now.entries;
            } }
        ensures history { self.new.history ≡ history.now.entries }
        ensures table { self.new.table ≡ self.old.table }
        ensures out { self.new.out ≡ turn.old.deck ∷ without turn.old.deck self.old.out }
    {
        let badge = mem::replace(&mut turn.badge, Badge::blank());
        self.seat.take_in(badge);
        self.seat.grow(history);
        turn.badge = self.seat.hand_out();
    }

    /// What a turn knows is what the history has of its deck, and the history went on from the one
    /// that the deck saw. Nothing changes.
    pub fn tell(&mut self, turn: &mut Turn)
        requires own_ledger { turn.old.ledger ≡ self.old.table }
        ensures told { turn.old.entries ≡ entries_of turn.old.deck self.old.history }
        ensures grown { HasGrown turn.old.history self.old.history }
        ensures turn { turn.new ≡ turn.old }
        ensures history { self.new.history ≡ self.old.history }
        ensures table { self.new.table ≡ self.old.table }
        ensures out { self.new.out ≡ turn.old.deck ∷ without turn.old.deck self.old.out }
    {
        let known = mem::replace(&mut turn.badge, Badge::blank());
        self.seat.take_in(known);
        self.seat.look();
        turn.badge = self.seat.hand_out();
    }

    /// Ends a turn. What it knew is what the history has of its deck.
    pub fn leave(&mut self, turn: Turn)
        requires own_ledger { turn.ledger ≡ self.old.table }
        ensures told { turn.entries ≡ entries_of turn.deck self.old.history }
        ensures grown { HasGrown turn.history self.old.history }
        ensures history { self.new.history ≡ self.old.history }
        ensures table { self.new.table ≡ self.old.table }
        ensures out { self.new.out ≡ without turn.deck self.old.out }
    {
        let Turn { deck: _, badge } = turn;
        self.seat.take_in(badge);
        self.seat.settle();
    }

    /// No other ledger is this one: it may be called only where that contradicts what is known.
    pub fn refute_twin(&mut self, twin: Ledger)
        requires same { twin.table ≡ self.old.table }
        ensures { ⊥ }
    {
        self.seat.refute_twin(twin.seat);
    }
}
