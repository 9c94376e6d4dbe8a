//! What the log answers where it can't do what was asked.
ghost use Rattle.std.specs.Prelude.{◌≡◌};
ghost use Rattle.vr_log.specs.LogNo.{no_of};

use vr_types::DeviceFault;

/// `Full`: the bytes in use and those that the record needs are more than the log has. `Write` and
/// `Read` are faults of the device.
#[derive(Clone, Copy, PartialEq, Eq)]
pub enum LogNo {
    Full { used: u64, need: u64, size: u64 },
    Write,
    Read,
}

impl From<DeviceFault> for LogNo {
    ghost from_gives = { λ fault no. no ≡ no_of fault };

    fn from(fault: DeviceFault) -> LogNo {
        match fault {
            DeviceFault::Read => LogNo::Read,
            DeviceFault::Write => LogNo::Write,
        }
    }
}
