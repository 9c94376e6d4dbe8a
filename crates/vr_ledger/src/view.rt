//! What the seats at a ledger's table know, and the rule and the steps of the table. All of it is
//! for the proofs.
use atomic_table::{Join, Play, Split, TableRule};
use std::collections::LinkedList;
use std::snapshot::Snapshot;
use vr_history::{Entry, History};

/// A deck, its entries in the history, and the history as the deck last saw it.
pub struct Part {
    pub deck: u32,
    pub entries: LinkedList<Entry>,
    pub history: LinkedList<Entry>,
}

/// What the ledger's own seat knows.
pub struct Whole {
    pub history: LinkedList<Entry>,
    /// The decks whose turns are out.
    pub out: LinkedList<u32>,
    /// What the turn knows that is in, if one is.
    pub joined: Option<Part>,
}

/// What a seat knows. No value of it is made.
pub enum View {
    OfLedger(Whole),
    OfTurn(Part),
    /// Of a turn's seat that was joined to the ledger's.
    Spent,
}

/// What a step announces to the proof.
#[derive(Drop)]
pub enum Said {
    /// This deck's turn begins.
    Enters(u32),
    /// The history goes on as this one.
    Grows(Snapshot<History>),
}

/// The rule: each turn knows all that the history has of its deck, and no two are of one deck.
pub struct EachItsOwn;

impl TableRule<Said, View, History> for EachItsOwn {
    ghost use Rattle.vr_ledger.specs.Views.{first_view};
    ghost use Rattle.vr_ledger.specs.Rule.{IsKept};

    ghost holds = { λ history. IsKept };

    ghost first = { λ history. first_view history.entries };
}

/// A deck's turn begins, with all that the history has of the deck.
pub struct Admit;

impl Play<Said, View> for Admit {
    ghost use Rattle.vr_ledger.specs.Plays.{Admits};

    ghost then = { Admits };
}

/// The deck whose turn is in has new entries at the end of the history.
pub struct Grow;

impl Play<Said, View> for Grow {
    ghost use Rattle.vr_ledger.specs.Plays.{Grows};

    ghost then = { Grows };
}

/// The turn that is in shows what it knows.
pub struct Look;

impl Play<Said, View> for Look {
    ghost use Rattle.vr_ledger.specs.Plays.{Looks};

    ghost then = { Looks };
}

/// The turn that is in ends.
pub struct Settle;

impl Play<Said, View> for Settle {
    ghost use Rattle.vr_ledger.specs.Plays.{Settles};

    ghost then = { Settles };
}

/// The turn that is in goes out.
pub struct HandOut;

impl Split<View> for HandOut {
    ghost use Rattle.vr_ledger.specs.Views.{without_turn, turn_of};

    ghost left = { without_turn };

    ghost right = { turn_of };
}

/// A turn comes in.
pub struct TakeIn;

impl Join<View> for TakeIn {
    ghost use Rattle.vr_ledger.specs.declared.view.View.TheVariants.{Spent};
    ghost use Rattle.vr_ledger.specs.Views.{with_turn};

    ghost both = { with_turn };

    ghost spent = { Spent };
}

/// A second seat that knows the whole comes in.
pub struct Meet;

impl Join<View> for Meet {
    ghost use Rattle.vr_ledger.specs.declared.view.View.TheVariants.{Spent};
    ghost use Rattle.vr_ledger.specs.Views.{met};

    ghost both = { met };

    ghost spent = { Spent };
}

/// The turn that is in shows that it isn't out.
pub struct Refute;

impl Play<Said, View> for Refute {
    ghost use Rattle.vr_ledger.specs.Plays.{Refutes};

    ghost then = { Refutes };
}
