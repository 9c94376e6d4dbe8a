//! Why a request for locks is refused.
ghost use Rattle.std.specs.Prelude.{◌≡◌};
ghost use Rattle.vr_locks.specs.declared.no.LockNo.TheVariants.{Memory};

use vr_types::{LockName, Mode, OutOfMemory, Unit};

/// Why a unit doesn't get the names that it asks for.
#[derive(Drop, PartialEq, Eq)]
pub enum LockNo {
    /// A lock of another unit stands in the way: its holder, its name and its mode.
    Held {
        holder: Unit,
        name: LockName,
        mode: Mode,
    },
    /// Memory ran out.
    Memory,
}

impl From<OutOfMemory> for LockNo {
    ghost from_gives = { λ _ given. given ≡ Memory };

    fn from(_error: OutOfMemory) -> LockNo {
        LockNo::Memory
    }
}
