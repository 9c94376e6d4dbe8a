//! A volume, as the thread of a deck sees it.
ghost use Rattle.std.specs.Prelude.{◌≡◌, ◌==◌, ℕ, IfOk, List, OnErr, false};
ghost use Rattle.vr_history.specs.declared.entry.Entry.{Entry};
ghost use Rattle.vr_trace.specs.Laws.{deck_entries};
ghost use Rattle.vr_worker.specs.Asked.{HasEntered, MayAsk, is_done};

use vr_history::History;
use vr_trace::RunNo;
use vr_types::SharedRequest;

/// A volume that answers the requests of decks event by event.
pub trait Served: Drop {
    /// The number of the volume.
    ghost number: { Self → ℕ };

    /// Its history.
    ghost entries: { Self → List Entry };

    /// The second is a later state of the first.
    ghost follows: { Self → Self → Type 0 };

    /// In the second a request of this deck waits for fewer steps than in the first.
    ghost nears: { Self → Self → ℕ → Type 0 };

    ghost stays: { (volume : Self) → Self.follows volume volume };

    ghost goes_on: { (a b c : Self) → Self.follows a b → Self.follows b c → Self.follows a c };

    /// The number of the volume.
    fn number(&self) -> u32
        ensures { result ≡ number self.now };

    /// Its history.
    fn history(&self) -> &History
        ensures { result.now.entries ≡ entries self.now };

    /// One event of a request of a deck, whose last stamp is `after`: whether the request was answered.
    /// Where it wasn't, a stage was done, so that it waits for less, and the deck asks it again. Where no
    /// stamps are left, or no unit of recovery of the deck (`Stamps`), or memory runs out (`Memory`,
    /// which may come at any time), nothing is entered.
    fn answer(
        &mut self,
        deck: u32,
        line: u32,
        request: &SharedRequest,
        after: u64,
    ) -> Result<bool, RunNo>
        requires deck { (deck == 0) ≡ false }
        requires may_ask { MayAsk request.now (deck_entries deck (entries self.old)) }
        ensures number { number self.new ≡ number self.old }
        ensures follows { follows self.old self.new }
        ensures entered { HasEntered (number self.old) deck line request.now after (is_done result)
            (entries self.old) (entries self.new) }
        ensures failed { OnErr result (entries self.new ≡ entries self.old) }
        ensures nearer { IfOk result (λ done. done ≡ false → nears self.old self.new deck) };
}
