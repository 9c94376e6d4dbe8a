//! Gates that hold a deck until another has passed a spot, or it has looked often enough.

use vr_outside::{Gate, Passes, Spot};

/// Holds deck 1 between two events of its request until deck 2 had the latch of volume 0 twice, and
/// deck 2, with the latch of volume 1, until deck 1 had that of volume 0.
#[derive(Drop)]
pub struct BetweenEvents {
    begun: Passes,
    asked: Passes,
}

impl BetweenEvents {
    /// A gate that no deck has passed yet.
    pub fn new() -> BetweenEvents {
        BetweenEvents {
            begun: Passes::new(),
            asked: Passes::new(),
        }
    }
}

impl Gate for BetweenEvents {
    fn pass(&self, at: Spot) {
        match at {
            Spot::Holding { deck: 1, volume: 0 } => self.begun.raise(),
            Spot::Holding { deck: 2, volume: 1 } => self.begun.wait(1),
            Spot::Holding { deck: 2, volume: 0 } => self.asked.raise(),
            Spot::Between { deck: 1, .. } => self.asked.wait(2),
            _ => {}
        }
    }
}
