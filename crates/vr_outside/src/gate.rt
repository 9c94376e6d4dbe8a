//! Gates, which a deck's thread passes as it runs.

/// Where a deck's thread passes a gate.
#[derive(Clone, Copy, PartialEq, Eq)]
pub enum Spot {
    /// Between two events of the request at a line of the deck, with no latch held.
    Between { deck: u32, line: u32 },
    /// Before an event, with the latch of a volume held.
    Holding { deck: u32, volume: u32 },
}

/// Something that a deck's thread passes as it runs: nothing, in the program; a gate that holds a
/// deck until others have passed, where a schedule is tried.
pub trait Gate {
    /// Passes a spot. It has to return.
    fn pass(&self, at: Spot);
}

/// A gate that holds nobody.
#[derive(Clone, Copy, PartialEq, Eq)]
pub struct OpenGate;

impl Gate for OpenGate {
    fn pass(&self, _at: Spot) {}
}
