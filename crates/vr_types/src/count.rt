//! Counts of faults.
ghost use Rattle.std.specs.Prelude.{◌≡◌, ℕ, ◌+◌};
ghost use Rattle.vr_types.specs.Count.{shown_of};

use std::marker::Model;
use std::snapshot::Snapshot;

/// The faults so far, as clauses see them: none, or one more than at an earlier moment. It takes no
/// memory, and so has no greatest value, as a number of the program would have.
#[derive(Drop)]
enum Tally {
    Zero,
    After(Snapshot<Tally>),
}

/// How often a source, a sink or a device has failed. Clauses see a number that rises without end.
#[derive(Drop)]
pub struct FaultCount {
    tally: Tally,
    shown: u64,
}

impl Model for FaultCount {
    ghost use Rattle.std.specs.Prelude.{◌≡◌, ℕ};
    ghost use Rattle.vr_types.specs.Count.{count_of, shown_of};

    ghost Value = { ℕ };

    ghost view = { λ faults. count_of faults.tally };

    ghost invariant = { λ faults. faults.shown ≡ shown_of (count_of faults.tally) };
}

impl FaultCount {
    /// No fault yet.
    pub fn new() -> FaultCount
        ensures { result ≡ 0 }
    {
        FaultCount {
            tally: Tally::Zero,
            shown: 0,
        }
    }

    /// Counts one more.
    pub fn raise(&mut self)
        ensures { self.new ≡ self.old + 1 }
    {
        self.tally = Tally::After(Snapshot::of(&self.tally));
        self.shown = self.shown.saturating_add(1);
    }

    /// The number as the program has it, which stays at 2^64 - 1 once it is there.
    pub fn shown(&self) -> u64
        ensures { result ≡ shown_of self.now }
    {
        self.shown
    }
}
