//! Why a part could not be made.
ghost use Rattle.std.specs.Prelude.{◌≡◌};
ghost use Rattle.vr_start.specs.declared.no.StartNo.TheVariants.{Fault, Memory};

use vr_types::{DeviceFault, OutOfMemory};

/// Why a part could not be made.
#[derive(Clone, Copy, PartialEq, Eq)]
pub enum StartNo {
    /// A fault of the device.
    Fault(DeviceFault),
    /// Out of memory for the part's buffers.
    Memory,
}

impl From<DeviceFault> for StartNo {
    ghost from_gives = { λ fault no. no ≡ Fault fault };

    fn from(fault: DeviceFault) -> StartNo {
        StartNo::Fault(fault)
    }
}

impl From<OutOfMemory> for StartNo {
    ghost from_gives = { λ _ no. no ≡ Memory };

    fn from(_error: OutOfMemory) -> StartNo {
        StartNo::Memory
    }
}
