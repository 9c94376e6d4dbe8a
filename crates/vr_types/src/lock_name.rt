//! What locks are on, and the order of these names.
ghost use Rattle.std.specs.Prelude.{◌≡◌, ◌↔◌, ◌++◌, IsTrue, IfOk, Some, refl};
ghost use Rattle.std.proofs.Common.{rules};
ghost use Rattle.std.specs.Hash as fed;
ghost use Rattle.std.specs.Cmp.{partial_order_from_own_ties};
ghost use Rattle.std.specs.Cmp.Rules.{comparing, hashing};
ghost use Rattle.std.specs.Ordering.{as_partial_cmp};
ghost use Rattle.vr_types.specs.LockName.{lock_name_cmp, lock_name_eq, kind_number, part_number};
ghost use Rattle.vr_types.specs.LockName.{place_of};

use crate::memory::OutOfMemory;
use crate::unit::PartNo;
use crate::values::Place;
use sqlite_items::Items;
use std::alloc::Global;
use std::cmp::Ordering;
use std::hash::{Hash, Hasher};

/// What a lock is on: a record of a part, or a key of a unique alternate index.
#[derive(Debug, Drop)]
pub enum LockName {
    Record { part: PartNo, place: Place },
    Unique { part: PartNo, key: Place },
}

/// A list of names of locks, built by `push` and seen as the list.
pub type LockNames = Items<LockName>;

impl LockName {
    /// Copies the value; fails only if memory runs out.
    pub fn copy(&self, alloc: Global) -> Result<LockName, OutOfMemory>
        ensures { IfOk result (λ copy. copy ≡ self.now) }
    {
        match self {
            LockName::Record { part, place } => Ok(LockName::Record {
                part: *part,
                place: place.copy(alloc)?,
            }),
            LockName::Unique { part, key } => Ok(LockName::Unique {
                part: *part,
                key: key.copy(alloc)?,
            }),
        }
    }
}

impl PartialEq for LockName {
    ghost eq = { lock_name_eq };

    ghost laws = { Prim.search (comparing, rules) };

    fn eq(&self, other: &LockName) -> bool
        ensures value { result ≡ lock_name_eq self.now other.now }
        ensures same { IsTrue result ↔ (self.now ≡ other.now) }
    {
        match (self, other) {
            (
                LockName::Record { part, place },
                LockName::Record {
                    part: other,
                    place: to,
                },
            ) => part == other && place == to,
            (
                LockName::Unique { part, key },
                LockName::Unique {
                    part: other,
                    key: to,
                },
            ) => part == other && key == to,
            _ => false,
        }
    }
}

impl Eq for LockName {
    ghost laws = { Prim.search (comparing, rules) };
}

impl PartialOrd for LockName {
    ghost partial_cmp = { as_partial_cmp lock_name_cmp };

    ghost laws = { partial_order_from_own_ties (Prim.search (comparing, rules))
        (Prim.search (comparing, rules)) };

    fn partial_cmp(&self, other: &LockName) -> Option<Ordering> {
        Some(self.cmp(other))
    }
}

impl Ord for LockName {
    ghost cmp = { lock_name_cmp };

    ghost total = { Prim.search (comparing, rules) };

    ghost matches_partial_cmp = { Prim.search (comparing, rules) };

    ghost matches_eq = { Prim.search (comparing, rules) };

    fn cmp(&self, other: &LockName) -> Ordering {
        match (self, other) {
            (
                LockName::Record { part, place },
                LockName::Record {
                    part: other,
                    place: to,
                },
            ) => part.cmp(other).then(place.cmp(to)),
            (
                LockName::Unique { part, key },
                LockName::Unique {
                    part: other,
                    key: to,
                },
            ) => part.cmp(other).then(key.cmp(to)),
            (LockName::Record { .. }, LockName::Unique { .. }) => Ordering::Less,
            (LockName::Unique { .. }, LockName::Record { .. }) => Ordering::Greater,
        }
    }
}

impl Hash for LockName {
    ghost hash_input = { λ name. fed.u8 (kind_number name) ++ fed.u32 (part_number name)
        ++ fed.slice fed.u8 (place_of name) };

    ghost respects_eq = { Prim.search (hashing, rules) };

    fn hash<H: Hasher>(&self, state: &mut H) {
        match self {
            LockName::Record { part, place } => {
                state.write_u8(0);
                part.0.hash(state);
                place.hash(state);
            }
            LockName::Unique { part, key } => {
                state.write_u8(1);
                part.0.hash(state);
                key.hash(state);
            }
        }
    }
}
