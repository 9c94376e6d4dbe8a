//! What holds a deck at a gate until another has passed a spot, for a limited number of turns: so a
//! run ends at every schedule, and also where no thread could be made. Schedules are tried with it;
//! the program holds nobody.

use crate::gate::{Gate, Spot};
use std::sync::atomic::{AtomicU32, Ordering};
use std::thread;

/// How often a held deck looks whether it may go on.
const LIMIT: u32 = 20_000_000;

/// How often a spot was passed, less those that were taken back. Threads share it; no clause says
/// what it counts.
#[derive(Drop)]
pub struct Passes {
    passed: AtomicU32,
}

impl Passes {
    /// None yet.
    pub fn new() -> Passes {
        Passes {
            passed: AtomicU32::new(0),
        }
    }

    /// Counts one more.
    pub fn raise(&self) {
        self.passed.fetch_add(1, Ordering::SeqCst);
    }

    /// Counts one less.
    pub fn lower(&self) {
        self.passed.fetch_sub(1, Ordering::SeqCst);
    }

    /// How many are counted.
    pub fn count(&self) -> u32 {
        self.passed.load(Ordering::SeqCst)
    }

    /// Whether this many are counted.
    pub fn is_at(&self, wanted: u32) -> bool {
        self.count() >= wanted
    }

    /// Waits until this many are counted, or it has looked 20,000,000 times. It lets other threads
    /// run each time.
    pub fn wait(&self, wanted: u32) {
        for _ in 0..LIMIT {
            if self.is_at(wanted) {
                return;
            }
            thread::yield_now();
        }
    }
}

/// A gate that holds deck 1, with the latch of volume 0, and deck 2, with that of volume 1, until
/// both are there.
#[derive(Drop)]
pub struct BothHeld {
    first: Passes,
    second: Passes,
    met: Passes,
}

impl BothHeld {
    /// A gate that no deck has passed yet.
    pub fn new() -> BothHeld {
        BothHeld {
            first: Passes::new(),
            second: Passes::new(),
            met: Passes::new(),
        }
    }

    /// Whether each deck had its latch while the other had the other.
    pub fn is_met(&self) -> bool {
        self.met.is_at(2)
    }

    fn meet(&self, own: &Passes, other: &Passes) {
        own.raise();
        other.wait(1);
        if other.is_at(1) {
            self.met.raise();
        }
    }
}

impl Gate for BothHeld {
    fn pass(&self, at: Spot) {
        match at {
            Spot::Holding { deck: 1, volume: 0 } => self.meet(&self.first, &self.second),
            Spot::Holding { deck: 2, volume: 1 } => self.meet(&self.second, &self.first),
            _ => {}
        }
    }
}
