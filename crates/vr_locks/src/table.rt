//! The lock table, as its callers see it.
ghost use Rattle.std.specs.Prelude.{◌≡◌, [], IfErr, None, OnErr, OnOk};
ghost use Rattle.std.specs.Option.{option_map};
ghost use Rattle.vr_locks.specs.Answer.{CauseOf};
ghost use Rattle.vr_types.specs.Locks.{conflict_on, first_conflict};
ghost use Rattle.vr_locks.specs.Conflict.{holding};
ghost use Rattle.vr_locks.specs.Locked.{with_locks, without_unit};

use crate::maps::LockMaps;
use crate::no::LockNo;
use std::alloc::Global;
use std::collections::HashMap;
use std::marker::Model;
use vr_types::{LockName, LockNames, Mode, Unit};

/// Who holds which name in which mode, seen as the list of locks in the order in which they were
/// taken (DFSMStvs Planning and Operating Guide, record locks).
#[derive(Drop)]
pub struct LockTable {
    pub(crate) maps: LockMaps,
}

impl Model for LockTable {
    ghost use Rattle.std.specs.Prelude.{List};
    ghost use Rattle.vr_types.specs.Locks.{Lock};

    ghost Value = { List Lock };

    ghost use Rattle.vr_locks.specs.Maps.{IsConsistent, locks_in};

    ghost view = { λ table. locks_in table.maps };

    ghost invariant = { λ table. IsConsistent table.maps table.maps.next };
}

/// A table with no lock.
pub fn lock_table(alloc: Global) -> LockTable
    ensures { result ≡ [] }
{
    LockTable {
        maps: LockMaps {
            locks: HashMap::new(alloc),
            names: HashMap::new(alloc),
            units: HashMap::new(alloc),
            next: 0,
            alloc,
        },
    }
}

impl LockTable {
    /// Gives a unit all the names in a mode, or none. The unit's own locks are never in the way,
    /// and a shared one is raised in its place. A name that is given twice counts once. `Held`
    /// comes exactly where a lock of another unit stands in the way of a name: it shows the first
    /// such name and the earliest such lock. `Memory` comes where memory runs out, also for the
    /// name that `Held` would show. All memory is taken before a lock changes, and an error changes
    /// none.
    pub fn ask(&mut self, unit: Unit, names: &LockNames, mode: Mode) -> Result<(), LockNo>
        ensures granted { OnOk result (conflict_on self.old unit mode names.now ≡ None) }
        ensures refused { IfErr result (CauseOf (conflict_on self.old unit mode names.now)) }
        ensures taken { OnOk result (self.new ≡ with_locks unit mode self.old names.now) }
        ensures unchanged { OnErr result (self.new ≡ self.old) }
    {
        self.maps.ask(unit, mode, names.as_slice())
    }

    /// The holder and the mode of the earliest lock that stands in the way of a unit that would ask
    /// for a name. It takes no memory.
    pub fn test(&self, unit: Unit, name: &LockName, mode: Mode) -> Option<(Unit, Mode)>
        ensures { result ≡ option_map holding (first_conflict self.now unit mode name.now) }
    {
        self.maps.conflict(unit, mode, name)
    }

    /// Takes a unit's locks away, and leaves those of the others in their order. It takes no
    /// memory.
    pub fn end(&mut self, unit: Unit)
        ensures { self.new ≡ without_unit unit self.old }
    {
        self.maps.end(unit);
    }
}
