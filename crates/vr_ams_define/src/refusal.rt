//! Why no cluster was defined.
ghost use Rattle.std.specs.Prelude.{◌≡◌};
ghost use Rattle.vr_ams_define.specs.Steps.{no_by};
ghost use Rattle.vr_ams_define.specs.declared.refusal.DefineNo.TheVariants.{Ended};
ghost use Rattle.vr_trace.specs.declared.no.RunNo.TheVariants.{Memory};

use crate::failure::catalog_failure;
use vr_catalog::CatFault;
use vr_trace::{Failure, RunNo};
use vr_types::OutOfMemory;

/// Why no cluster was defined: the command is refused, or stamps or memory ran out.
#[derive(Clone, Copy)]
pub(crate) enum DefineNo {
    Refused(Failure),
    Ended(RunNo),
}

impl From<RunNo> for DefineNo {
    ghost from_gives = { λ end no. no ≡ Ended end };

    fn from(end: RunNo) -> DefineNo {
        DefineNo::Ended(end)
    }
}

impl From<OutOfMemory> for DefineNo {
    ghost from_gives = { λ _ no. no ≡ Ended Memory };

    fn from(_error: OutOfMemory) -> DefineNo {
        DefineNo::Ended(RunNo::Memory)
    }
}

impl From<CatFault> for DefineNo {
    ghost from_gives = { λ fault no. no ≡ no_by fault };

    fn from(fault: CatFault) -> DefineNo {
        match fault {
            CatFault::Memory => DefineNo::Ended(RunNo::Memory),
            _ => DefineNo::Refused(catalog_failure(fault)),
        }
    }
}
