//! The end of a unit of recovery.
ghost use Rattle.std.specs.Prelude.{◌≡◌, ◌⊎◌, ℕ, None, cond, nat_eq, not};
ghost use Rattle.std.specs.HashMap.{get};
ghost use Rattle.std.specs.List.{filter, list_any};
ghost use Rattle.vr_types.specs.LockName.{lock_name_eq};
ghost use Rattle.vr_types.specs.Locks.{Lock};
ghost use Rattle.vr_locks.specs.Filed.{AreUsed};
ghost use Rattle.vr_locks.specs.Locked.{without_unit};
ghost use Rattle.vr_locks.specs.Listed.{IsFiled};
ghost use Rattle.vr_locks.specs.Maps.{IsConsistent, lock_at, locks_in, of_name};

use crate::filed::{drop_number, take_numbers};
use crate::maps::LockMaps;
use vr_types::{LockName, Unit};

impl LockMaps {
    /// Takes away the lock with a number, if there is one, and the number from under its name.
    fn drop_lock(&mut self, number: u64)
        requires { AreUsed (get lock_name_eq self.old.names) }
        ensures used { AreUsed (get lock_name_eq self.new.names) }
        ensures locks { (n : ℕ) → lock_at self.new n
            ≡ cond (nat_eq number n) None (lock_at self.old n) }
        ensures names { (q : LockName) → (of_name self.new q ≡ of_name self.old q)
            ⊎ (of_name self.new q ≡ filter (λ n. not (nat_eq n number)) (of_name self.old q)) }
        ensures units { self.new.units ≡ self.old.units }
        ensures next { self.new.next ≡ self.old.next }
    {
        if let Some(lock) = self.locks.remove(&number) {
            drop_number(&mut self.names, lock.name(), number);
        }
    }

    /// Takes away the locks with these numbers.
    fn drop_locks(&mut self, numbers: &[u64])
        requires names { IsFiled lock_name_eq (λ (lock : Lock). lock.name)
            (lock_at self.old) self.old.next (of_name self.old) }
        requires used { AreUsed (get lock_name_eq self.old.names) }
        ensures used { AreUsed (get lock_name_eq self.new.names) }
        ensures locks { (n : ℕ) → lock_at self.new n
            ≡ cond (list_any (nat_eq n) numbers.now) None (lock_at self.old n) }
        ensures names { IsFiled lock_name_eq (λ (lock : Lock). lock.name)
            (lock_at self.new) self.new.next (of_name self.new) }
        ensures units { self.new.units ≡ self.old.units }
        ensures next { self.new.next ≡ self.old.next }
    {
        for number in numbers {
            self.drop_lock(*number);
        }
    }

    /// Takes the unit's locks away, and touches no others. It takes no memory.
    pub(crate) fn end(&mut self, unit: Unit)
        requires { IsConsistent self.old self.old.next }
        ensures locks { locks_in self.new ≡ without_unit unit (locks_in self.old) }
        ensures kept { IsConsistent self.new self.new.next }
    {
        let numbers = take_numbers(self.alloc, &mut self.units, &unit);
        self.drop_locks(&numbers);
    }
}
