//! A lock that is held.
ghost use Rattle.std.specs.Prelude.{◌≡◌};
ghost use Rattle.vr_types.specs.Locks.{Lock, same_unit, stands_against};
ghost use Rattle.vr_locks.specs.Locked.{raise};

use std::marker::Model;
use vr_types::{LockName, Mode, Unit};

/// A lock of a unit of recovery on a name.
#[derive(Drop)]
pub(crate) struct HeldLock {
    name: LockName,
    unit: Unit,
    mode: Mode,
}

impl Model for HeldLock {
    ghost Value = { Lock };

    ghost view = { λ held. record { name = held.name; unit = held.unit; mode = held.mode } };
}

impl HeldLock {
    /// A lock of a unit on a name.
    pub(crate) fn new(name: LockName, unit: Unit, mode: Mode) -> HeldLock
        ensures { result ≡ record { name = name; unit = unit; mode = mode } }
    {
        HeldLock { name, unit, mode }
    }

    /// What it is on.
    pub(crate) fn name(&self) -> &LockName
        ensures { result.now ≡ self.now.name }
    {
        &self.name
    }

    /// Who has it.
    pub(crate) fn unit(&self) -> Unit
        ensures { result ≡ self.now.unit }
    {
        self.unit
    }

    /// How it is held.
    pub(crate) fn mode(&self) -> Mode
        ensures { result ≡ self.now.mode }
    {
        self.mode
    }

    /// Whether it is the unit's.
    pub(crate) fn is_of(&self, unit: Unit) -> bool
        ensures { result ≡ same_unit unit self.now.unit }
    {
        unit == self.unit
    }

    /// Whether it stands in the way of a unit that asks for its name in a mode.
    #[tactic(auto, unfolding(vr_types::specs::Locks::stands_against))]
    pub(crate) fn is_against(&self, unit: Unit, mode: Mode) -> bool
        ensures { result ≡ stands_against unit mode self.now }
    {
        unit != self.unit && (mode == Mode::Exclusive || self.mode == Mode::Exclusive)
    }

    /// Makes it exclusive where the mode is.
    pub(crate) fn raise(&mut self, mode: Mode)
        ensures { self.new ≡ raise mode self.old }
    {
        if mode == Mode::Exclusive {
            self.mode = Mode::Exclusive;
        }
    }
}
