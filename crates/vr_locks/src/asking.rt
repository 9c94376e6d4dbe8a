//! A request, from its refusal to its locks.
ghost use Rattle.std.specs.Prelude.{◌≡◌, ◌<◌, ◌≤◌, ◌+◌, ℕ, length, None, slice_index_or};
ghost use Rattle.std.specs.Prelude.{IfErr, IfOk, OnErr, OnOk};
ghost use Rattle.std.specs.HashMap.{spare};
ghost use Rattle.vr_locks.specs.Answer.{CauseOf};
ghost use Rattle.vr_types.specs.Locks.{conflict_on};
ghost use Rattle.vr_locks.specs.Listed.{AreBelow};
ghost use Rattle.vr_locks.specs.Locked.{with_locks};
ghost use Rattle.vr_locks.specs.Maps.{IsConsistent, lock_at, locks_in};
ghost use Rattle.vr_locks.specs.Plan.{NoneAgainst};

use crate::maps::LockMaps;
use crate::no::LockNo;
use vr_types::{LockName, Mode, OutOfMemory, Unit};

impl LockMaps {
    /// Makes room for that many locks more. No lock changes.
    fn reserve(&mut self, count: usize) -> Result<(), OutOfMemory>
        requires { IsConsistent self.old self.old.next }
        ensures kept { IsConsistent self.new self.new.next }
        ensures locks { (n : ℕ) → lock_at self.new n ≡ lock_at self.old n }
        ensures next { self.new.next ≡ self.old.next }
        ensures room { OnOk result (count ≤ spare self.new.locks) }
    {
        self.locks.reserve(count)?;
        Ok(())
    }

    /// Sets that many numbers aside, and gives the first. Where fewer are left, it answers as where
    /// memory runs out.
    fn set_aside(&mut self, count: usize) -> Result<u64, OutOfMemory>
        requires { IsConsistent self.old self.old.next }
        ensures first { IfOk result (λ first. first ≡ self.old.next) }
        ensures next { OnOk result (self.new.next ≡ self.old.next + count) }
        ensures kept { IsConsistent self.new self.old.next }
        ensures locks { self.new.locks ≡ self.old.locks }
        ensures unchanged { OnErr result (self.new.next ≡ self.old.next) }
    {
        let first = self.next;
        match first.checked_add(count as u64) {
            Some(next) => {
                self.next = next;
                Ok(first)
            }
            None => Err(OutOfMemory),
        }
    }

    /// Removes the lock numbers of a request that failed from the lists of its names and of its
    /// unit.
    fn forget(&mut self, unit: Unit, names: &[LockName], first: u64)
        requires kept { IsConsistent self.old self.old.next }
        requires within { first + length names.now ≤ self.old.next }
        requires last { AreBelow (lock_at self.old) first }
        ensures kept { IsConsistent self.new self.new.next }
        ensures locks { self.new.locks ≡ self.old.locks }
        ensures next { self.new.next ≡ self.old.next }
    {
        for (i, name) in names.iter().enumerate() {
            self.forget_one(unit, name, first + i as u64);
        }
    }

    /// Gives a unit names that nothing stands in the way of. All memory is taken before a lock
    /// changes.
    fn grant(&mut self, unit: Unit, mode: Mode, names: &[LockName]) -> Result<(), OutOfMemory>
        requires kept { IsConsistent self.old self.old.next }
        requires free { (m : ℕ) (name : LockName) → m < length names.now
            → NoneAgainst self.old unit mode (slice_index_or names.now m name) }
        ensures kept { IsConsistent self.new self.new.next }
        ensures taken { OnOk result
            (locks_in self.new ≡ with_locks unit mode (locks_in self.old) names.now) }
        ensures unchanged { OnErr result (locks_in self.new ≡ locks_in self.old) }
    {
        self.reserve(names.len())?;
        let first = self.set_aside(names.len())?;
        match self.plan_all(unit, names, first) {
            Ok(steps) => {
                self.carry_out(unit, mode, names, first, steps);
                Ok(())
            }
            Err(out) => {
                self.forget(unit, names, first);
                Err(out)
            }
        }
    }

    /// Gives a unit all the names in a mode, or none.
    pub(crate) fn ask(&mut self, unit: Unit, mode: Mode, names: &[LockName]) -> Result<(), LockNo>
        requires { IsConsistent self.old self.old.next }
        ensures kept { IsConsistent self.new self.new.next }
        ensures granted { OnOk result (conflict_on (locks_in self.old) unit mode names.now ≡ None) }
        ensures refused { IfErr result
            (CauseOf (conflict_on (locks_in self.old) unit mode names.now)) }
        ensures taken { OnOk result
            (locks_in self.new ≡ with_locks unit mode (locks_in self.old) names.now) }
        ensures unchanged { OnErr result (locks_in self.new ≡ locks_in self.old) }
    {
        self.refuse(unit, mode, names)?;
        self.grant(unit, mode, names)?;
        Ok(())
    }
}
