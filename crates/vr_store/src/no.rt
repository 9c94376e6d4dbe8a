//! What a read of a record, a definition and a change of an entry fail with.
ghost use Rattle.std.specs.Prelude.{◌≡◌};
ghost use Rattle.vr_store.specs.Cause.{refused_by};
ghost use Rattle.vr_store.specs.declared.no.DefineNo.TheVariants as refusals;
ghost use Rattle.vr_store.specs.declared.no.LookNo.TheVariants.{Fault, Memory};

use vr_start::StartNo;
use vr_types::{DeviceFault, OutOfMemory};

/// Why a record could not be copied, or be handed to a visitor.
#[derive(Clone, Copy, PartialEq, Eq)]
pub enum LookNo {
    /// A fault of the device.
    Fault(DeviceFault),
    /// Out of memory, for the copy or to the visitor.
    Memory,
}

impl From<DeviceFault> for LookNo {
    ghost from_gives = { λ fault no. no ≡ Fault fault };

    fn from(fault: DeviceFault) -> LookNo {
        LookNo::Fault(fault)
    }
}

impl From<OutOfMemory> for LookNo {
    ghost from_gives = { λ _ no. no ≡ Memory };

    fn from(_error: OutOfMemory) -> LookNo {
        LookNo::Memory
    }
}

/// Why a part could not be defined, or an entry of the catalog not be changed.
#[derive(Clone, Copy, PartialEq, Eq)]
pub enum DefineNo {
    /// Out of memory; it is taken before anything is logged.
    Memory,
    /// The log has no room for the before-image.
    Full,
    /// A fault of the device.
    Fault(DeviceFault),
}

impl From<OutOfMemory> for DefineNo {
    ghost from_gives = { λ _ no. no ≡ refusals.Memory };

    fn from(_error: OutOfMemory) -> DefineNo {
        DefineNo::Memory
    }
}

impl From<StartNo> for DefineNo {
    ghost from_gives = { λ no it. it ≡ refused_by no };

    fn from(no: StartNo) -> DefineNo {
        match no {
            StartNo::Fault(fault) => DefineNo::Fault(fault),
            StartNo::Memory => DefineNo::Memory,
        }
    }
}
