//! The memory of a request, which is taken before a lock changes.
ghost use Rattle.std.specs.Prelude.{◌≡◌, ◌≢◌, ◌<◌, ◌≤◌, ◌+◌, ℕ, None, length, IfOk, OnOk};
ghost use Rattle.vr_locks.specs.Maps.{IsConsistent, lock_at};
ghost use Rattle.vr_locks.specs.Plan.{AreStepsFor, IsFiledFor, IsStepFor};

use crate::filed::{drop_number, file};
use crate::maps::LockMaps;
use std::alloc::Global;
use vr_types::{LockName, OutOfMemory, Unit};

/// What a request does for one of its names.
#[derive(Drop)]
pub(crate) enum Step {
    /// The unit has a lock on the name already, with this number.
    Raise { number: u64 },
    /// A lock on the name is to stand under this number.
    Take { number: u64, name: LockName },
}

impl LockMaps {
    /// Files a number that was never used under a unit and a name. Where memory runs out, the
    /// number stays unused.
    fn file_under(&mut self, unit: Unit, name: LockName, number: u64) -> Result<(), OutOfMemory>
        requires kept { IsConsistent self.old number }
        requires room { number < self.old.next }
        ensures locks { self.new.locks ≡ self.old.locks }
        ensures next { self.new.next ≡ self.old.next }
        ensures kept { IsConsistent self.new (number + 1) }
        ensures others { (n : ℕ) (other : LockName) → n < number
            → IsFiledFor self.old unit other n → IsFiledFor self.new unit other n }
        ensures filed { OnOk result (IsFiledFor self.new unit name number) }
    {
        file(self.alloc, &mut self.units, unit, number)?;
        file(self.alloc, &mut self.names, name, number)?;
        Ok(())
    }

    /// Takes the memory for one name, which may take a number that was never used. No lock changes.
    fn plan(&mut self, unit: Unit, name: &LockName, number: u64) -> Result<Step, OutOfMemory>
        requires kept { IsConsistent self.old number }
        requires room { number < self.old.next }
        ensures locks { self.new.locks ≡ self.old.locks }
        ensures next { self.new.next ≡ self.old.next }
        ensures kept { IsConsistent self.new (number + 1) }
        ensures others { (n : ℕ) (other : LockName) → n < number
            → IsFiledFor self.old unit other n → IsFiledFor self.new unit other n }
        ensures step { IfOk result (IsStepFor self.new unit name.now number) }
    {
        if let Some(own) = self.own(unit, name) {
            return Ok(Step::Raise { number: own });
        }
        let key = name.copy(self.alloc)?;
        let name = name.copy(self.alloc)?;
        self.file_under(unit, key, number)?;
        Ok(Step::Take { number, name })
    }

    /// Takes the memory for each name of a request, whose numbers begin with `first`. No lock
    /// changes.
    pub(crate) fn plan_all(
        &mut self,
        unit: Unit,
        names: &[LockName],
        first: u64,
    ) -> Result<Vec<Step>, OutOfMemory>
        requires kept { IsConsistent self.old first }
        requires room { first + length names.now ≤ self.old.next }
        ensures locks { self.new.locks ≡ self.old.locks }
        ensures next { self.new.next ≡ self.old.next }
        ensures kept { IsConsistent self.new self.new.next }
        ensures steps { IfOk result
            (λ steps. AreStepsFor self.new unit names.now first steps.items) }
    {
        let mut steps = Vec::new(self.alloc);
        for (i, name) in names.iter().enumerate() {
            let step = self.plan(unit, name, first + i as u64)?;
            steps.push(step)?;
        }
        Ok(steps)
    }

    /// Removes a number that no lock has from the lists of a name and of a unit.
    pub(crate) fn forget_one(&mut self, unit: Unit, name: &LockName, number: u64)
        requires kept { IsConsistent self.old self.old.next }
        requires unused { lock_at self.old number ≡ None }
        ensures kept { IsConsistent self.new self.new.next }
        ensures locks { self.new.locks ≡ self.old.locks }
        ensures next { self.new.next ≡ self.old.next }
        ensures others { (n : ℕ) (other : LockName) → n ≢ number
            → IsFiledFor self.old unit other n → IsFiledFor self.new unit other n }
    {
        drop_number(&mut self.names, name, number);
        drop_number(&mut self.units, &unit, number);
    }
}
