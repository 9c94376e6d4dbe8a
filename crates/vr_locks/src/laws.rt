//! Laws of the lock table: what holds after any sequence of calls, and what a refusal says.
ghost use Rattle.std.specs.Prelude.{◌≡◌, ◌≢◌, ◌↔◌, AllPairs, Contains, IsTrue, List, None, Some};
ghost use Rattle.vr_types.specs.declared.lock_name.LockName.{LockName};
ghost use Rattle.vr_types.specs.declared.unit.Mode.{Mode};
ghost use Rattle.vr_types.specs.declared.unit.Unit as units;
ghost use Rattle.vr_types.specs.Locks.{Conflict, Lock, conflict_on, conflicts, first_conflict};

use crate::table::LockTable;

/// No two locks of a table conflict, and no two are of one unit on one name, whatever calls made
/// it.
pub fn locks_go_together(table: &LockTable)
    ensures apart { (a b : Lock) → Contains table.now a → Contains table.now b
        → Conflict a b → ⊥ }
    ensures once { AllPairs (λ (a b : Lock). a.name ≡ b.name → a.unit ≢ b.unit) table.now }
{
    let _ = &table.maps;
}

/// A lock stands in the way of a request exactly where it conflicts with the lock that is asked
/// for.
pub fn conflicts_stand_in_the_way()
    ensures { (unit : units.Unit) (mode : Mode) (name : LockName) (lock : Lock)
        → IsTrue (conflicts unit mode name lock)
        ↔ Conflict (record { name = name; unit = unit; mode = mode }) lock }
{}

/// What a refusal shows is held, by another unit, on a name of the request.
pub fn shown_is_held()
    ensures held { (locks : List Lock) (unit : units.Unit) (mode : Mode)
        (names : List LockName) (shown : Lock)
        → conflict_on locks unit mode names ≡ Some shown
        → Contains locks shown }
    ensures asked { (locks : List Lock) (unit : units.Unit) (mode : Mode)
        (names : List LockName) (shown : Lock)
        → conflict_on locks unit mode names ≡ Some shown
        → Contains names shown.name }
    ensures conflicts { (locks : List Lock) (unit : units.Unit) (mode : Mode)
        (names : List LockName) (shown : Lock)
        → conflict_on locks unit mode names ≡ Some shown
        → Conflict (record { name = shown.name; unit = unit; mode = mode }) shown }
{}

/// A name that nobody holds is never refused, and a request for such names neither.
pub fn free_is_granted()
    ensures name { (locks : List Lock) (unit : units.Unit) (mode : Mode) (name : LockName)
        → ((lock : Lock) → Contains locks lock → lock.name ≢ name)
        → first_conflict locks unit mode name ≡ None }
    ensures names { (locks : List Lock) (unit : units.Unit) (mode : Mode) (names : List LockName)
        → ((name : LockName) (lock : Lock) → Contains names name → Contains locks lock
        → lock.name ≢ name)
        → conflict_on locks unit mode names ≡ None }
{}
