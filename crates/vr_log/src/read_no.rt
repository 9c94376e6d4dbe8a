//! Why a log could not be read back, or cleared.
ghost use Rattle.std.specs.Prelude.{◌≡◌};
ghost use Rattle.vr_log.specs.declared.read_no.LogReadNo.TheVariants.{Fault, Memory};

use vr_types::{DeviceFault, OutOfMemory};

/// Why a log could not be read back, or blocks past its end not be cleared.
#[derive(Clone, Copy, PartialEq, Eq)]
pub enum LogReadNo {
    /// The blocks spell no log: the first of them that is misspelled.
    Damaged { block: u32 },
    /// A fault of the device.
    Fault(DeviceFault),
    /// Out of memory for the records, or for the zeros of a block.
    Memory,
}

impl From<DeviceFault> for LogReadNo {
    ghost from_gives = { λ fault no. no ≡ Fault fault };

    fn from(fault: DeviceFault) -> LogReadNo {
        LogReadNo::Fault(fault)
    }
}

impl From<OutOfMemory> for LogReadNo {
    ghost from_gives = { λ _ no. no ≡ Memory };

    fn from(_error: OutOfMemory) -> LogReadNo {
        LogReadNo::Memory
    }
}
