//! Why a volume is not opened.
ghost use Rattle.std.specs.Prelude.{◌≡◌};

use vr_attach::PartNo2;
use vr_types::{DeviceFault, OutOfMemory};

/// What a volume has for which it is not opened, though it may be one. The limits are this project's
/// own.
#[derive(Clone, Copy)]
pub enum Unserved {
    /// The catalog has an alternate index that is built, which no request changes with its base yet.
    BuiltIndex,
    /// The catalog has a cluster whose longest record has no room in an interval of its own.
    LongRecord,
}

/// Why a volume is not opened.
#[derive(Clone, Copy)]
pub enum OpenNo {
    /// The blocks are those of no volume of that number: a block that breaks a rule, and the rule.
    /// 1: the header, block 0. 2: the log. 3 to 14: a part, by the numbers of `vr_attach`. 17: the
    /// catalog's records aren't those of a catalog, and 3 and 4: they name an area that the volume
    /// hasn't, or one twice, all at the catalog's head. 19: before-images can't be put back, at the
    /// first block of the log.
    Damaged { block: u32, rule: u32 },
    /// Block 0 begins as a header, of another version.
    Version { found: u32 },
    /// The header is that of a volume of that number, which has what isn't served: the block that
    /// has it, the catalog's head.
    Unserved { block: u32, cause: Unserved },
    /// A read of the device failed.
    Read,
    /// A write or a sync of the device failed.
    Write,
    /// There is no memory.
    Memory,
}

/// What is answered where before-images can't be put back: the first block of the log.
pub(crate) fn cannot_go_back() -> OpenNo
    ensures { result ≡ OpenNo.Damaged 1 19 }
{
    OpenNo::Damaged { block: 1, rule: 19 }
}

impl From<DeviceFault> for OpenNo {
    ghost use Rattle.std.specs.Prelude.{◌≡◌};
    ghost use Rattle.vr_recover.specs.OpenNo.{fault_no};

    ghost from_gives = { λ fault no. no ≡ fault_no fault };

    fn from(fault: DeviceFault) -> OpenNo {
        match fault {
            DeviceFault::Read => OpenNo::Read,
            DeviceFault::Write => OpenNo::Write,
        }
    }
}

impl From<OutOfMemory> for OpenNo {
    ghost use Rattle.std.specs.Prelude.{◌≡◌};
    ghost use Rattle.vr_recover.specs.declared.open_no.OpenNo.TheVariants.{Memory};

    ghost from_gives = { λ _ no. no ≡ Memory };

    fn from(_error: OutOfMemory) -> OpenNo {
        OpenNo::Memory
    }
}

impl From<PartNo2> for OpenNo {
    ghost use Rattle.std.specs.Prelude.{◌≡◌};
    ghost use Rattle.vr_recover.specs.OpenNo.{part_answer};

    ghost from_gives = { λ why no. no ≡ part_answer why };

    fn from(why: PartNo2) -> OpenNo {
        match why {
            PartNo2::Damaged { block, rule } => OpenNo::Damaged {
                block,
                rule: u32::from(rule),
            },
            PartNo2::Fault(fault) => OpenNo::from(fault),
            PartNo2::Memory => OpenNo::Memory,
        }
    }
}
