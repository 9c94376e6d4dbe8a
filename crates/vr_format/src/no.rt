//! Why a volume was not formatted.
use std::alloc::AllocError;
use vr_types::{Failed, OutOfMemory};

/// Why a volume was not formatted.
#[derive(Clone, Copy, PartialEq, Eq)]
pub enum FormatNo {
    /// A volume may not have that shape on that device. Nothing was written.
    Geometry,
    /// The entry at that place, from 0 on, can't be formatted. Nothing was written.
    Entries { at: u32 },
    /// A write or the sync failed. Some blocks may have been written.
    Write,
    /// Memory ran out. Nothing was written.
    Memory,
}

impl From<OutOfMemory> for FormatNo {
    ghost use Rattle.std.specs.Prelude.{◌≡◌};
    ghost use Rattle.vr_format.specs.declared.no.FormatNo.TheVariants.{Memory};

    ghost from_gives = { λ _ no. no ≡ Memory };

    fn from(_error: OutOfMemory) -> FormatNo {
        FormatNo::Memory
    }
}

impl From<AllocError> for FormatNo {
    ghost use Rattle.std.specs.Prelude.{◌≡◌};
    ghost use Rattle.vr_format.specs.declared.no.FormatNo.TheVariants.{Memory};

    ghost from_gives = { λ _ no. no ≡ Memory };

    fn from(_error: AllocError) -> FormatNo {
        FormatNo::Memory
    }
}

impl From<Failed> for FormatNo {
    ghost use Rattle.std.specs.Prelude.{◌≡◌};
    ghost use Rattle.vr_format.specs.declared.no.FormatNo.TheVariants.{Write};

    ghost from_gives = { λ _ no. no ≡ Write };

    fn from(_error: Failed) -> FormatNo {
        FormatNo::Write
    }
}
