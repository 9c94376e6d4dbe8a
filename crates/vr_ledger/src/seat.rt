//! The table of a ledger, with the ledger's own seat at it.
ghost use Rattle.std.specs.Prelude.{◌≡◌, [], length};
ghost use Rattle.vr_ledger.specs.declared.view.View.TheVariants.{OfLedger};
ghost use Rattle.vr_ledger.specs.Views.{whole_in};

use crate::view::{
    Admit, EachItsOwn, Grow, HandOut, Look, Meet, Refute, Said, Settle, TakeIn, View,
};
use atomic_table::{Badge, Seat, Table};
use std::alloc::Global;
use std::snapshot::Snapshot;
use vr_history::History;
use vr_types::OutOfMemory;

/// The table, whose one word is the number of the entries, and the ledger's seat.
#[derive(Drop)]
pub(crate) struct LedgerSeat {
    table: Table<Said, View, History, EachItsOwn, Global>,
    seat: Seat<Said, View>,
    entries: u64,
    ghost of_table: { seat.table_id ≡ table.shared.table_id },
    ghost one_word: { table.shared.table_id.words ≡ 1 },
    ghost no_slot: { seat.me.1 ≡ [] },
    ghost knows_whole: { seat.me.0 ≡ OfLedger (whole_in seat.me.0) },
    ghost counted: { entries ≡ length (whole_in seat.me.0).history },
}

impl LedgerSeat {
    ghost use Rattle.std.specs.Prelude.{ℕ, List, ◌∷◌, ◌++◌, IfOk, None, All};
    ghost use Rattle.vr_history.specs.declared.entry.Entry.{Entry};
    ghost use Rattle.vr_ledger.specs.declared.view.View.TheVariants.{OfTurn};
    ghost use Rattle.vr_ledger.specs.Decks.{times};
    ghost use Rattle.vr_ledger.specs.Entries.{IsOf};
    ghost use Rattle.vr_ledger.specs.Views.{whole, admitted, taken_in, grown, settled, handed_out};
    ghost use Rattle.vr_ledger.specs.Views.{IsAllOf, IsOfTurn, known_in, HasTurnIn, part_joined};
    ghost use Rattle.vr_ledger.specs.Seats.{whole_of, table_of};

    /// A table for a history, with no turn.
    pub(crate) fn new(alloc: Global, history: &History) -> Result<LedgerSeat, OutOfMemory>
        ensures { IfOk result (λ made. whole_of made ≡ whole history.now.entries [] None) }
    {
        let entries = history.entries().len() as u64;
        let (table, seat) = Table::of_words(alloc, &[entries], history)?;
        Ok(LedgerSeat {
            table,
            seat,
            entries,
        })
    }

    /// The turn of a deck that has none begins, and is in.
    pub(crate) fn admit(&mut self, deck: u32)
        requires free { times deck (whole_of self.old).out ≡ 0 }
        ensures whole { whole_of self.new ≡ admitted deck (whole_of self.old) }
        ensures table { table_of self.new ≡ table_of self.old }
    {
        let LedgerSeat {
            table,
            seat,
            entries,
        } = self;
        let said = Said::Enters(deck);
        table
            .shared
            .compare_exchange_with::<Admit>(seat, 0, *entries, *entries, &said);
    }

    /// A turn comes in.
    pub(crate) fn take_in(&mut self, turn: Badge<View>)
        requires own { turn.table_id ≡ table_of self.old }
        requires turn { IsOfTurn turn.views }
        ensures whole { whole_of self.new ≡ taken_in (known_in turn.views) (whole_of self.old) }
        ensures table { table_of self.new ≡ table_of self.old }
    {
        let LedgerSeat { table, seat, .. } = self;
        table.shared.join_seat::<TakeIn>(seat, turn.into_seat());
    }

    /// The history goes on as this one, with entries of the deck whose turn is in.
    pub(crate) fn grow(&mut self, history: &History)
        requires in_turn { HasTurnIn (whole_of self.old) }
        requires more { (made : List Entry)
            × (history.now.entries ≡ (whole_of self.old).history ++ made)
            × All (IsOf (part_joined (whole_of self.old)).deck) made }
        ensures told { IsAllOf (whole_of self.old).history (part_joined (whole_of self.old)) }
        ensures whole { whole_of self.new ≡ grown history.now.entries (whole_of self.old) }
        ensures table { table_of self.new ≡ table_of self.old }
    {
        let LedgerSeat {
            table,
            seat,
            entries,
        } = self;
        let said = Said::Grows(Snapshot::of(history));
        let more = history.entries().len() as u64;
        table
            .shared
            .compare_exchange_with::<Grow>(seat, 0, *entries, more, &said);
        *entries = more;
    }

    /// The turn that is in knows all that the history has of its deck.
    pub(crate) fn look(&mut self)
        requires in_turn { HasTurnIn (whole_of self.old) }
        ensures told { IsAllOf (whole_of self.old).history (part_joined (whole_of self.old)) }
        ensures whole { whole_of self.new ≡ whole_of self.old }
        ensures table { table_of self.new ≡ table_of self.old }
    {
        let LedgerSeat { table, seat, .. } = self;
        table.shared.load::<Look>(seat, 0);
    }

    /// The turn that is in ends.
    pub(crate) fn settle(&mut self)
        requires in_turn { HasTurnIn (whole_of self.old) }
        ensures told { IsAllOf (whole_of self.old).history (part_joined (whole_of self.old)) }
        ensures whole { whole_of self.new ≡ settled (whole_of self.old) }
        ensures table { table_of self.new ≡ table_of self.old }
    {
        let LedgerSeat { table, seat, .. } = self;
        table.shared.load::<Settle>(seat, 0);
    }

    /// The turn that is in goes out.
    pub(crate) fn hand_out(&mut self) -> Badge<View>
        requires in_turn { HasTurnIn (whole_of self.old) }
        ensures turn { result.views ≡ OfTurn (part_joined (whole_of self.old)) ∷ [] }
        ensures own { result.table_id ≡ table_of self.old }
        ensures whole { whole_of self.new ≡ handed_out (whole_of self.old) }
        ensures table { table_of self.new ≡ table_of self.old }
    {
        let LedgerSeat { table, seat, .. } = self;
        table.shared.split_seat::<HandOut>(seat).into_badge()
    }

    /// No second seat knows the whole of this table.
    pub(crate) fn refute_twin(&mut self, twin: LedgerSeat)
        requires same { table_of twin ≡ table_of self.old }
        ensures { ⊥ }
    {
        let LedgerSeat { table, seat, .. } = self;
        let LedgerSeat {
            table: _,
            seat: second,
            entries: _,
        } = twin;
        table.shared.join_seat::<Meet>(seat, second);
        table.shared.load::<Refute>(seat, 0);
    }
}
