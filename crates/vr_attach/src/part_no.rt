//! Why a part could not be attached.
ghost use Rattle.std.specs.Prelude.{◌≡◌};
ghost use Rattle.vr_attach.specs.declared.part_no.PartNo2.TheVariants.{Fault, Memory};

use vr_types::{DeviceFault, OutOfMemory};

/// Why a part could not be attached.
#[derive(Clone, Copy, PartialEq, Eq)]
pub enum PartNo2 {
    /// The blocks stand for no content: the first of the walk that breaks a rule, and the number of
    /// the least rule that it breaks, as `Rule` has it.
    Damaged { block: u32, rule: u8 },
    /// A fault of the device.
    Fault(DeviceFault),
    /// Out of memory for the part's buffers.
    Memory,
}

impl From<DeviceFault> for PartNo2 {
    ghost from_gives = { λ fault no. no ≡ Fault fault };

    fn from(fault: DeviceFault) -> PartNo2 {
        PartNo2::Fault(fault)
    }
}

impl From<OutOfMemory> for PartNo2 {
    ghost from_gives = { λ _ no. no ≡ Memory };

    fn from(_error: OutOfMemory) -> PartNo2 {
        PartNo2::Memory
    }
}
