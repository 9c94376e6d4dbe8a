//! The locks of a request, once all of its memory is there.
ghost use Rattle.std.specs.Prelude.{◌≡◌, ◌≢◌, ◌<◌, ◌≤◌, ◌+◌, ℕ, false, cond, nat_eq, length, Some};
ghost use Rattle.std.specs.Prelude.{slice_index_or};
ghost use Rattle.std.specs.HashMap.{spare};
ghost use Rattle.std.specs.List.{list_any};
ghost use Rattle.std.specs.Option.{option_map};
ghost use Rattle.vr_locks.specs.Listed.{AreBelow};
ghost use Rattle.vr_locks.specs.Locked.{is_own, raise, with_locks};
ghost use Rattle.vr_locks.specs.Maps.{IsConsistent, KeepsFiled, lock_at, locks_in};
ghost use Rattle.vr_locks.specs.Plan.{AreStepsFor, IsFiledFor, IsOwnAt, IsStepFor};
ghost use Rattle.vr_locks.specs.Plan.{Grants, NoneAgainst};

use crate::held::HeldLock;
use crate::maps::LockMaps;
use crate::planning::Step;
use vr_types::{LockName, Mode, Unit};

impl LockMaps {
    /// Makes the lock with a number exclusive, where the mode is.
    fn raise_at(&mut self, number: u64, mode: Mode)
        ensures locks { (n : ℕ) →
            let old = lock_at self.old n in
            lock_at self.new n ≡ cond (nat_eq number n) (option_map (raise mode) old) old }
        ensures filed { KeepsFiled self.old self.new }
        ensures room { spare self.new.locks ≡ spare self.old.locks }
    {
        if let Some(lock) = self.locks.get_mut(&number) {
            lock.raise(mode);
        }
    }

    /// Puts a lock under a number, for which there is room.
    fn put_at(&mut self, number: u64, lock: HeldLock)
        requires { 0 < spare self.old.locks }
        ensures locks { (n : ℕ) → lock_at self.new n
            ≡ cond (nat_eq number n) (Some lock) (lock_at self.old n) }
        ensures filed { KeepsFiled self.old self.new }
        ensures room { spare self.old.locks ≤ spare self.new.locks + 1 }
    {
        let put = self.locks.insert(number, lock);
        prove!(put.is_ok());
    }

    /// Raises the unit's own lock on a name in its place, where the mode is exclusive.
    fn raise(&mut self, unit: Unit, mode: Mode, name: &LockName, own: u64)
        requires kept { IsConsistent self.old self.old.next }
        requires own { IsOwnAt self.old unit name.now own }
        requires free { NoneAgainst self.old unit mode name.now }
        ensures grants { Grants unit mode name.now self.old self.new }
        ensures filed { KeepsFiled self.old self.new }
        ensures last { (n : ℕ) → AreBelow (lock_at self.old) n → AreBelow (lock_at self.new) n }
        ensures room { spare self.new.locks ≡ spare self.old.locks }
    {
        self.raise_at(own, mode);
    }

    /// Puts a new lock under a number that is filed for it, as the last. There is room for it.
    fn put(&mut self, unit: Unit, mode: Mode, name: LockName, number: u64)
        requires kept { IsConsistent self.old self.old.next }
        requires within { number < self.old.next }
        requires last { AreBelow (lock_at self.old) number }
        requires filed { IsFiledFor self.old unit name number }
        requires owned { list_any (is_own unit name) (locks_in self.old) ≡ false }
        requires free { NoneAgainst self.old unit mode name }
        requires room { 0 < spare self.old.locks }
        ensures grants { Grants unit mode name self.old self.new }
        ensures filed { KeepsFiled self.old self.new }
        ensures last { AreBelow (lock_at self.new) (number + 1) }
        ensures room { spare self.old.locks ≤ spare self.new.locks + 1 }
    {
        self.put_at(number, HeldLock::new(name, unit, mode));
    }

    /// Raises the unit's lock on a name that a request has twice, and takes back the number that
    /// was filed for it the second time.
    fn raise_again(&mut self, unit: Unit, mode: Mode, name: &LockName, own: u64, number: u64)
        requires kept { IsConsistent self.old self.old.next }
        requires last { AreBelow (lock_at self.old) number }
        requires own { IsOwnAt self.old unit name.now own }
        requires free { NoneAgainst self.old unit mode name.now }
        ensures grants { Grants unit mode name.now self.old self.new }
        ensures others { (n : ℕ) (other : LockName) → n ≢ number
            → IsFiledFor self.old unit other n → IsFiledFor self.new unit other n }
        ensures last { AreBelow (lock_at self.new) number }
        ensures room { spare self.new.locks ≡ spare self.old.locks }
    {
        self.raise(unit, mode, name, own);
        self.forget_one(unit, name, number);
    }

    /// Does what is to be done for one name, which takes no memory: the unit's own lock on it is
    /// raised, or a new one comes last.
    fn carry(&mut self, unit: Unit, mode: Mode, name: &LockName, number: u64, step: Step)
        requires kept { IsConsistent self.old self.old.next }
        requires within { number < self.old.next }
        requires last { AreBelow (lock_at self.old) number }
        requires step { IsStepFor self.old unit name.now number step }
        requires free { NoneAgainst self.old unit mode name.now }
        requires room { 0 < spare self.old.locks }
        ensures grants { Grants unit mode name.now self.old self.new }
        ensures others { (n : ℕ) (other : LockName) → n ≢ number
            → IsFiledFor self.old unit other n → IsFiledFor self.new unit other n }
        ensures last { AreBelow (lock_at self.new) (number + 1) }
        ensures room { spare self.old.locks ≤ spare self.new.locks + 1 }
    {
        match step {
            Step::Raise { number: own } => self.raise(unit, mode, name, own),
            Step::Take { number, name } => match self.own(unit, &name) {
                Some(own) => self.raise_again(unit, mode, &name, own, number),
                None => self.put(unit, mode, name, number),
            },
        }
    }

    /// Does what is to be done for each name of a request, which takes no memory.
    pub(crate) fn carry_out(
        &mut self,
        unit: Unit,
        mode: Mode,
        names: &[LockName],
        first: u64,
        steps: Vec<Step>,
    )
        requires kept { IsConsistent self.old self.old.next }
        requires within { first + length names.now ≤ self.old.next }
        requires last { AreBelow (lock_at self.old) first }
        requires steps { AreStepsFor self.old unit names.now first steps.items }
        requires free { (m : ℕ) (name : LockName) → m < length names.now
            → NoneAgainst self.old unit mode (slice_index_or names.now m name) }
        requires room { length names.now ≤ spare self.old.locks }
        ensures locks { locks_in self.new ≡ with_locks unit mode (locks_in self.old) names.now }
        ensures kept { IsConsistent self.new self.new.next }
    {
        let mut place = 0usize;
        for step in steps {
            self.carry(unit, mode, &names[place], first + place as u64, step);
            place += 1;
        }
    }
}
