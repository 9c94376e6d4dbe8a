//! The maps of the table, and what is read off them.
ghost use Rattle.std.specs.Prelude.{◌≡◌, true, false, Some, None, MatchOption, OnOk, IfErr};
ghost use Rattle.std.specs.Option.{option_map};
ghost use Rattle.std.specs.List.{list_any};
ghost use Rattle.vr_types.specs.Locks.{Lock, conflict_on, first_conflict};
ghost use Rattle.vr_locks.specs.Answer.{CauseOf};
ghost use Rattle.vr_locks.specs.Conflict.{holding};
ghost use Rattle.vr_locks.specs.Locked.{is_own};
ghost use Rattle.vr_locks.specs.Maps.{IsConsistent, lock_at, locks_in};

use crate::filed::numbers;
use crate::held::HeldLock;
use crate::no::LockNo;
use std::alloc::Global;
use std::collections::HashMap;
use vr_types::{LockName, Mode, Unit};

/// The locks, each under a number that no other lock ever had, and the numbers that are filed under
/// each name and each unit. A lock that was taken later has a higher number, so the numbers keep
/// the order. While a request is planned, numbers are filed that no lock has: they count for
/// nothing.
#[derive(Drop)]
pub(crate) struct LockMaps {
    pub(crate) locks: HashMap<u64, HeldLock>,
    pub(crate) names: HashMap<LockName, Vec<u64>>,
    pub(crate) units: HashMap<Unit, Vec<u64>>,
    pub(crate) next: u64,
    pub(crate) alloc: Global,
}

impl LockMaps {
    /// The holder and the mode of the earliest lock that stands in the way of a name.
    pub(crate) fn conflict(&self, unit: Unit, mode: Mode, name: &LockName) -> Option<(Unit, Mode)>
        requires { IsConsistent self.now self.now.next }
        ensures { result
            ≡ option_map holding (first_conflict (locks_in self.now) unit mode name.now) }
    {
        for number in numbers(&self.names, name) {
            if let Some(lock) = self.locks.get(number) {
                if lock.is_against(unit, mode) {
                    return Some((lock.unit(), lock.mode()));
                }
            }
        }
        None
    }

    /// The number of the unit's own lock on a name.
    pub(crate) fn own(&self, unit: Unit, name: &LockName) -> Option<u64>
        requires { IsConsistent self.now self.now.next }
        ensures { MatchOption result
            (list_any (is_own unit name.now) (locks_in self.now) ≡ false)
            (λ n. (lock : Lock) × (lock_at self.now n ≡ Some lock)
            × (is_own unit name.now lock ≡ true)) }
    {
        for number in numbers(&self.names, name) {
            if let Some(lock) = self.locks.get(number) {
                if lock.is_of(unit) {
                    return Some(*number);
                }
            }
        }
        None
    }

    /// Answers with the lock that stands in the way of the first name that has one.
    pub(crate) fn refuse(&self, unit: Unit, mode: Mode, names: &[LockName]) -> Result<(), LockNo>
        requires { IsConsistent self.now self.now.next }
        ensures granted { OnOk result (conflict_on (locks_in self.now) unit mode names.now ≡ None) }
        ensures refused { IfErr result
            (CauseOf (conflict_on (locks_in self.now) unit mode names.now)) }
    {
        for name in names {
            if let Some((holder, held)) = self.conflict(unit, mode, name) {
                let name = name.copy(self.alloc)?;
                return Err(LockNo::Held {
                    holder,
                    name,
                    mode: held,
                });
            }
        }
        Ok(())
    }
}
