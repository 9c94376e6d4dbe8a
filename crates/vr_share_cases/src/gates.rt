//! Gates that hold a deck until another has passed a spot, or it has looked often enough.

use vr_outside::{Gate, Passes, Spot};

/// Holds deck 1, with the latch of volume 1, until deck 2 got to that of volume 2 twice; and deck
/// 2, with the latch of volume 2, until deck 1 got to that of volume 1 once, and the second time
/// until it did twice.
#[derive(Drop)]
pub struct InTurns {
    first: Passes,
    second: Passes,
}

impl InTurns {
    /// A gate that no deck has passed yet.
    pub fn new() -> InTurns {
        InTurns {
            first: Passes::new(),
            second: Passes::new(),
        }
    }
}

impl Gate for InTurns {
    fn pass(&self, at: Spot) {
        match at {
            Spot::Holding { deck: 1, volume: 1 } => {
                self.first.raise();
                self.second.wait(2);
            }
            Spot::Holding { deck: 2, volume: 2 } => {
                self.second.raise();
                self.first.wait(self.second.count().min(2));
            }
            _ => {}
        }
    }
}

/// Lets two decks run in turns, deck 2 first: each ends its turn where it gets to the latch of a
/// volume of its own, deck 1 to that of volume 1 and deck 2 to that of volume 2, and is held there
/// until the other one has ended its next. The last turn of each isn't held.
#[derive(Drop)]
pub struct StrictTurns {
    turns: u32,
    first: Passes,
    second: Passes,
}

impl StrictTurns {
    /// The gate that holds deck 1 until deck 2 has ended its first turn, and so on to this many
    /// turns of deck 1.
    pub fn of(turns: u32) -> StrictTurns {
        StrictTurns {
            turns,
            first: Passes::new(),
            second: Passes::new(),
        }
    }

    /// Ends a turn of deck 1.
    fn end_first(&self) {
        self.first.raise();
        let ended = self.first.count();
        if ended < self.turns {
            self.second.wait(ended);
        }
    }

    /// Ends a turn of deck 2.
    fn end_second(&self) {
        self.second.raise();
        let ended = self.second.count();
        self.first.wait(ended.saturating_add(1).min(self.turns));
    }
}

impl Gate for StrictTurns {
    fn pass(&self, at: Spot) {
        match at {
            Spot::Holding { deck: 1, volume: 1 } => self.end_first(),
            Spot::Holding { deck: 2, volume: 2 } => self.end_second(),
            _ => {}
        }
    }
}

/// Holds deck 1 after so many events of its request until deck 2 had the latch of volume 1 twice,
/// and deck 2, with that latch, until deck 1 is there. It counts the events of both that didn't
/// answer their request, without those of the COMMITs at their ends, whose line is 0.
#[derive(Drop)]
pub struct BetweenEvents {
    events: u32,
    done: Passes,
    others: Passes,
    asked: Passes,
}

impl BetweenEvents {
    /// The gate that holds deck 1 after this many events that didn't answer its request.
    pub fn after(events: u32) -> BetweenEvents {
        BetweenEvents {
            events,
            done: Passes::new(),
            others: Passes::new(),
            asked: Passes::new(),
        }
    }

    /// How many events of deck 1 didn't answer a request.
    pub fn events_of_first(&self) -> u32 {
        self.done.count()
    }

    /// How many of deck 2 didn't.
    pub fn events_of_second(&self) -> u32 {
        self.others.count()
    }
}

impl Gate for BetweenEvents {
    fn pass(&self, at: Spot) {
        match at {
            Spot::Between { line: 0, .. } => {}
            Spot::Between { deck: 1, .. } => {
                self.done.raise();
                if self.done.is_at(self.events) {
                    self.asked.wait(2);
                }
            }
            Spot::Between { deck: 2, .. } => self.others.raise(),
            Spot::Holding { deck: 2, volume: 1 } => {
                self.asked.raise();
                self.done.wait(self.events);
            }
            _ => {}
        }
    }
}

/// Holds the other decks, with a latch, until the first request of one was answered.
#[derive(Drop)]
pub struct OneFirst {
    first: u32,
    begun: Passes,
    early: Passes,
}

impl OneFirst {
    /// The gate that lets this deck go first.
    pub fn of(first: u32) -> OneFirst {
        OneFirst {
            first,
            begun: Passes::new(),
            early: Passes::new(),
        }
    }

    /// Whether no other deck was let go before.
    pub fn is_kept(&self) -> bool {
        self.early.count() == 0
    }

    /// Holds another deck.
    fn hold(&self) {
        self.begun.wait(2);
        if !self.begun.is_at(2) {
            self.early.raise();
        }
    }
}

impl Gate for OneFirst {
    fn pass(&self, at: Spot) {
        match at {
            Spot::Holding { deck, .. } if deck == self.first => self.begun.raise(),
            Spot::Between { deck, .. } if deck == self.first => self.begun.lower(),
            Spot::Holding { .. } => self.hold(),
            Spot::Between { .. } => {}
        }
    }
}
