//! Why a header is not taken, and why records are not listed.

use vr_types::{DeviceFault, OutOfMemory};

/// Why block 0 gives no shape.
#[derive(Clone, Copy, PartialEq, Eq)]
pub enum HeaderNo {
    /// It is not the header of a volume of that number, of any shape that the device has room for.
    Damaged,
    /// It begins as a header, of another version.
    Version { found: u32 },
    /// A read of the device failed.
    Read,
    /// A write of the device failed: another block had to be written out.
    Write,
}

impl From<DeviceFault> for HeaderNo {
    ghost use Rattle.std.specs.Prelude.{◌≡◌};
    ghost use Rattle.vr_mount.specs.Faults.{header_no};

    ghost from_gives = { λ fault no. no ≡ header_no fault };

    fn from(fault: DeviceFault) -> HeaderNo {
        match fault {
            DeviceFault::Read => HeaderNo::Read,
            DeviceFault::Write => HeaderNo::Write,
        }
    }
}

/// Why the records of a part are not listed.
#[derive(Clone, Copy, PartialEq, Eq)]
pub enum ListNo {
    /// A fault of the device.
    Fault(DeviceFault),
    /// There is no memory for the records.
    Memory,
}

impl From<DeviceFault> for ListNo {
    ghost use Rattle.std.specs.Prelude.{◌≡◌};
    ghost use Rattle.vr_mount.specs.declared.no.ListNo.TheVariants.{Fault};

    ghost from_gives = { λ fault no. no ≡ Fault fault };

    fn from(fault: DeviceFault) -> ListNo {
        ListNo::Fault(fault)
    }
}

impl From<OutOfMemory> for ListNo {
    ghost use Rattle.std.specs.Prelude.{◌≡◌};
    ghost use Rattle.vr_mount.specs.declared.no.ListNo.TheVariants.{Memory};

    ghost from_gives = { λ _ no. no ≡ Memory };

    fn from(_error: OutOfMemory) -> ListNo {
        ListNo::Memory
    }
}
