//! A deck's turn at a ledger.
ghost use Rattle.std.specs.Prelude.{◌≡◌};

use crate::view::View;
use atomic_table::Badge;
use std::marker::Model;

/// A deck's turn at the ledger of a volume: what the deck knows of its own entries in the volume's
/// history. It outlives the volume's latch, and may go to another thread. At run time it is the
/// deck's number.
#[derive(Drop)]
pub struct Turn {
    pub(crate) deck: u32,
    pub(crate) badge: Badge<View>,
}

impl Model for Turn {
    ghost use Rattle.vr_ledger.specs.Turn.{TurnNow, turn_now, IsTurn};

    ghost Value = { TurnNow };

    ghost view = { λ turn. turn_now turn.deck turn.badge };

    ghost invariant = { λ turn. IsTurn turn.deck turn.badge };
}

impl Turn {
    /// The deck whose turn it is.
    pub fn deck(&self) -> u32
        ensures { result ≡ self.now.deck }
    {
        self.deck
    }
}
